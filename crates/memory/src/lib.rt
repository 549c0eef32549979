// The memory that is lent for one link.
#![tactic(auto)]

ghost use Rattle.scan.specs.Bools.{Decides};
ghost use Rattle.memory.specs.End.{lent, Formed, FormedBeside};

use head::Head;

// Whether all but the unanswered messages is well formed.
pub fn is_sound_beside(h: Head, sent: &[u8], received: &[u8], answers: &[u8]) -> bool
    ensures { Decides result (FormedBeside h sent.now received.now answers.now) }
{
    h.is_sound()
        & flights::tables::is_table(sent)
        & flights::tables::is_table(received)
        & answers::is_answers(answers)
}

// Whether all that is lent is well formed. It is looked at on every call, before anything else.
pub fn is_sound(h: Head, sent: &[u8], received: &[u8], unanswered: &[u8], answers: &[u8]) -> bool
    ensures { Decides result (Formed h (lent sent.now received.now unanswered.now answers.now)) }
{
    let ours = h.ours;
    let partners = h.partners;
    is_sound_beside(h, sent, received, answers)
        & unanswered::is_unanswered(unanswered, &ours, &partners)
}
