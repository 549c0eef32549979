// What the bench host in C calls.
#![tactic(auto)]

ghost use Rattle.reader.specs.Reading.{route as route_of, other as other_of};
ghost use Rattle.flights.specs.Flight.{WellFormed};
ghost use Rattle.flights.specs.Formed.{TableFormed};
ghost use Rattle.answers.specs.Given.{AnswersFormed};
ghost use Rattle.memory.specs.End.{lent};
ghost use Rattle.host.specs.Calls.{Receives, Sends, SetUp, Resent, Checked, LinkFormed, WaitingFormed, ReadInto, WroteFrom, WordsAt};

use message::Verdict;

mod numbers;

// THE READER: the record of a text is written over 246 bytes.
#[unsafe(no_mangle)]
pub extern "C" fn pamiqsun_read(
    text: &[u8],
    content: &mut [u8],
    place: &mut usize,
    hyphens: &mut usize,
) -> usize
    ensures { ReadInto text.now content.old result place.new hyphens.new content.new }
{
    if content.len() != 246 {
        *place = 0;
        *hyphens = 0;
        return 12;
    }
    let q = reader::read(text);
    let v = q.verdict;
    match v {
        Verdict::Read => {
            packed::put(content, q.record);
            *place = 0;
            *hyphens = 0;
            0
        }
        Verdict::Refused(at, before) => {
            *place = at;
            *hyphens = before;
            1
        }
    }
}

// THE WRITER: the text of the record that stands in 246 bytes, over the bytes d.
#[unsafe(no_mangle)]
pub extern "C" fn pamiqsun_write(
    d: &[u8],
    content: &[u8],
    out: &mut [u8],
    size: &mut usize,
) -> usize
    ensures { WroteFrom d.now content.now out.old result size.new out.new }
{
    if content.len() != 246 {
        *size = 0;
        return 12;
    }
    let v = writer::write(packed::unpacked::take(content), d, out);
    *size = numbers::written_size(v);
    numbers::written_number(v)
}

// Where the words of field 15 stand in a text.
#[unsafe(no_mangle)]
pub extern "C" fn pamiqsun_route(text: &[u8], at: &mut usize, size: &mut usize) -> usize
    ensures { WordsAt route_of text.now result at.new size.new }
{
    let q = reader::read(text);
    let p = reader::route_in(q.record);
    *at = (p / 65536) as usize;
    *size = (p % 65536) as usize;
    let v = q.verdict;
    match v {
        Verdict::Read => 0,
        Verdict::Refused(place, before) => 1,
    }
}

// Where the words of field 18 stand in a text.
#[unsafe(no_mangle)]
pub extern "C" fn pamiqsun_other(text: &[u8], at: &mut usize, size: &mut usize) -> usize
    ensures { WordsAt other_of text.now result at.new size.new }
{
    let q = reader::read(text);
    let p = reader::other_in(q.record);
    *at = (p / 65536) as usize;
    *size = (p % 65536) as usize;
    let v = q.verdict;
    match v {
        Verdict::Read => 0,
        Verdict::Refused(place, before) => 1,
    }
}

// THE CHECK of all that is lent for a link.
#[unsafe(no_mangle)]
pub extern "C" fn pamiqsun_is_formed(
    head: &[u8],
    sent: &[u8],
    received: &[u8],
    unanswered: &[u8],
    answers: &[u8],
) -> usize
    ensures { Checked (LinkFormed head.now (lent sent.now received.now unanswered.now answers.now)) result }
{
    if head.len() != 12 {
        return 12;
    }
    numbers::found(memory::is_sound(
        packed::head_bytes::head_in(head),
        sent,
        received,
        unanswered,
        answers,
    ))
}

// And the checks of what is lent, part by part, so that a host can tell which is damaged.
#[unsafe(no_mangle)]
pub extern "C" fn pamiqsun_is_flight(flight: &[u8]) -> usize
    ensures { Checked (WellFormed flight.now) result }
{
    numbers::found(flights::checking::is_well_formed(flight))
}

#[unsafe(no_mangle)]
pub extern "C" fn pamiqsun_is_table(table: &[u8]) -> usize
    ensures { Checked (TableFormed table.now) result }
{
    numbers::found(flights::tables::is_table(table))
}

#[unsafe(no_mangle)]
pub extern "C" fn pamiqsun_is_unanswered(head: &[u8], unanswered: &[u8]) -> usize
    ensures { Checked (WaitingFormed head.now unanswered.now) result }
{
    if head.len() != 12 {
        return 12;
    }
    let h = packed::head_bytes::head_in(head);
    let ours = h.ours;
    let partners = h.partners;
    numbers::found(unanswered::is_unanswered(unanswered, &ours, &partners))
}

#[unsafe(no_mangle)]
pub extern "C" fn pamiqsun_is_answers(answers: &[u8]) -> usize
    ensures { Checked (AnswersFormed answers.now) result }
{
    numbers::found(answers::is_answers(answers))
}

// SETTING UP an end, over whatever stands in the memory.
#[unsafe(no_mangle)]
pub extern "C" fn pamiqsun_set_up(
    ours: &[u8],
    partners: &[u8],
    head: &mut [u8],
    sent: &mut [u8],
    received: &mut [u8],
    unanswered: &mut [u8],
    answers: &mut [u8],
) -> usize
    ensures { SetUp ours.now partners.now head.old (lent sent.old received.old unanswered.old answers.old) result head.new (lent sent.new received.new unanswered.new answers.new) }
{
    if head.len() != 12 {
        return 12;
    }
    let o = link::beginning::set_up(
        packed::head_bytes::head_in(head),
        ours,
        partners,
        sent,
        received,
        unanswered,
        answers,
    );
    packed::head_bytes::put_head(head, o.head);
    let a = o.answer;
    let t = numbers::tell(a);
    t.number
}

// SENDING what the record in 246 bytes says, over the bytes d.
#[unsafe(no_mangle)]
pub extern "C" fn pamiqsun_send(
    d: &[u8],
    content: &[u8],
    head: &mut [u8],
    sent: &[u8],
    received: &mut [u8],
    unanswered: &mut [u8],
    answers: &[u8],
    out: &mut [u8],
    size: &mut usize,
) -> usize
    ensures { Sends d.now content.now head.old (lent sent.now received.old unanswered.old answers.now) out.old result size.new head.new (lent sent.now received.new unanswered.new answers.now) out.new }
{
    if head.len() != 12 {
        *size = 0;
        return 12;
    }
    if content.len() != 246 {
        *size = 0;
        return 12;
    }
    let o = link::dispatch::send(
        packed::head_bytes::head_in(head),
        packed::unpacked::take(content),
        d,
        sent,
        received,
        unanswered,
        answers,
        out,
    );
    packed::head_bytes::put_head(head, o.head);
    let a = o.answer;
    let t = numbers::tell(a);
    *size = t.size;
    t.number
}

// RECEIVING: a text from the partner.
#[unsafe(no_mangle)]
pub extern "C" fn pamiqsun_receive(
    text: &[u8],
    head: &mut [u8],
    sent: &mut [u8],
    received: &mut [u8],
    unanswered: &mut [u8],
    answers: &mut [u8],
    out: &mut [u8],
    size: &mut usize,
    place: &mut usize,
    hyphens: &mut usize,
) -> usize
    ensures { Receives text.now head.old (lent sent.old received.old unanswered.old answers.old) out.old result size.new place.new hyphens.new head.new (lent sent.new received.new unanswered.new answers.new) out.new }
{
    if head.len() != 12 {
        *size = 0;
        *place = 0;
        *hyphens = 0;
        return 12;
    }
    let o = link::receive(
        packed::head_bytes::head_in(head),
        text,
        sent,
        received,
        unanswered,
        answers,
        out,
    );
    packed::head_bytes::put_head(head, o.head);
    let a = o.answer;
    let t = numbers::tell(a);
    *size = t.size;
    *place = t.place;
    *hyphens = t.hyphens;
    t.number
}

// RESENDING: the kept text of an unanswered number. Nothing else changes.
#[unsafe(no_mangle)]
pub extern "C" fn pamiqsun_resend(
    number: usize,
    head: &[u8],
    sent: &[u8],
    received: &[u8],
    unanswered: &[u8],
    answers: &[u8],
    out: &mut [u8],
    size: &mut usize,
) -> usize
    ensures { Resent number head.now (lent sent.now received.now unanswered.now answers.now) out.old result size.new out.new }
{
    if head.len() != 12 {
        *size = 0;
        return 12;
    }
    let o = link::resend(
        packed::head_bytes::head_in(head),
        number,
        sent,
        received,
        unanswered,
        answers,
        out,
    );
    let a = o.answer;
    let t = numbers::tell(a);
    *size = t.size;
    t.number
}
