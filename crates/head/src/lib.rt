// The head of a link: who the two ends are, the next number to give and the highest that was received. It goes in whole and
// comes back whole.
#![tactic(auto)]

ghost use Rattle.std.specs.Prelude.{◌≡◌};
ghost use Rattle.scan.specs.Bools.{Decides};
ghost use Rattle.head.specs.Head.{after, standing, received, given};
ghost use Rattle.head.specs.Sound.{HeadFormed};

#[derive(Clone, Copy)]
pub struct Head {
    pub ours: [u8; 4],
    pub partners: [u8; 4],
    pub next: usize,
    pub highest: usize,
}

// What a received number is.
#[derive(Clone, Copy)]
pub enum Standing {
    New,
    Old,
    Stale,
}

// A number, and the head that follows once it is given.
#[derive(Clone, Copy)]
pub struct Given {
    pub number: usize,
    pub head: Head,
}

// Numbers run 000 to 999 and round again.
fn following(n: usize) -> usize
    ensures { result ≡ after n }
{
    (n % 1000 + 1) % 1000
}

impl Head {
    // The next number, with the head that follows.
    pub fn give(self) -> Given
        ensures { result ≡ given self }
    {
        let number = self.next;
        let mut head = self;
        head.next = following(number);
        Given { number, head }
    }

    // What the number n is, as it is received.
    pub fn judge(self, n: usize) -> Standing
        ensures { result ≡ standing self.highest n }
    {
        let d = (n % 1000 + 1000 - self.highest % 1000) % 1000;
        if d == 0 {
            return Standing::Old;
        }
        if d <= 400 {
            return Standing::New;
        }
        if d <= 600 {
            return Standing::Stale;
        }
        Standing::Old
    }

    // The head with another highest.
    pub fn receive(mut self, n: usize) -> Self
        ensures { result ≡ received self n }
    {
        self.highest = n;
        self
    }

    // Whether the head is well formed.
    pub fn is_sound(self) -> bool
        ensures { Decides result (HeadFormed self) }
    {
        let a = self.ours;
        let b = self.partners;
        let same = (a[0] == b[0]) & (a[1] == b[1]) & (a[2] == b[2]) & (a[3] == b[3]);
        let ours = scan::is_name(&a);
        let partners = scan::is_name(&b);
        ours & partners & !same & (self.next <= 999) & (self.highest <= 999)
    }
}
