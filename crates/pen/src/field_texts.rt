// The fields, each laid out from its parts.
ghost use Rattle.std.specs.Prelude.{[], ◌∷◌, ◌≡◌};
ghost use Rattle.pen.specs.Laying.{Lays, any_of, text_reference, text_two, text07, text_pair, text09, text10, text14, text15, text_alternates, text16, text18};

use crate::Sheet;
use scan::Span;

// Whether any of some parts is there.
fn any_there(parts: &[Span]) -> bool
    ensures { result ≡ any_of parts.now }
{
    parts.iter().any(|p| *p % 65536 > 0)
}

// The fields, each with what leads it: a hyphen, and within field 22 a number. Where no part of a field is there, nothing is
// added. The short ones, and `add_number`, are inlined: else writing a record takes 4 in a hundred more.
impl Sheet<'_> {
    pub fn add_reference(&mut self, a: Span, b: Span, c: Span)
        ensures { Lays self.old (λ d. text_reference d a b c ∷ []) (a ∷ b ∷ c ∷ []) self.new }
    {
        if any_there(&[a, b, c]) {
            self.add_number(a, b, c);
        }
    }

    // Two parts, each with what leads it, of which the second may be absent.
    #[inline(always)]
    fn add_two(&mut self, lead: &[u8], a: Span, between: &[u8], b: Span)
        ensures { Lays self.old (λ d. text_two lead.now between.now d a b ∷ []) (a ∷ b ∷ []) self.new }
    {
        if any_there(&[a, b]) {
            self.add(lead);
            self.add_part(a);
            self.add_led(between, b);
        }
    }

    #[inline(always)]
    pub fn add_07(&mut self, lead: &[u8], a: Span, b: Span)
        ensures { Lays self.old (λ d. text07 lead.now d a b ∷ []) (a ∷ b ∷ []) self.new }
    {
        self.add_two(lead, a, b"/A", b);
    }

    // 08, and 13.
    #[inline(always)]
    pub fn add_pair(&mut self, lead: &[u8], a: Span, b: Span)
        ensures { Lays self.old (λ d. text_pair lead.now d a b ∷ []) (a ∷ b ∷ []) self.new }
    {
        self.add_two(lead, a, b"", b);
    }

    pub fn add_09(&mut self, lead: &[u8], a: Span, b: Span, c: Span)
        ensures { Lays self.old (λ d. text09 lead.now d a b c ∷ []) (a ∷ b ∷ c ∷ []) self.new }
    {
        if any_there(&[a, b, c]) {
            self.add(lead);
            self.add_part(a);
            self.add_part(b);
            self.add(b"/");
            self.add_part(c);
        }
    }

    #[inline(always)]
    pub fn add_10(&mut self, lead: &[u8], a: Span, b: Span)
        ensures { Lays self.old (λ d. text10 lead.now d a b ∷ []) (a ∷ b ∷ []) self.new }
    {
        if any_there(&[a, b]) {
            self.add(lead);
            self.add_part(a);
            self.add(b"/");
            self.add_part(b);
        }
    }

    pub fn add_14(&mut self, lead: &[u8], a: Span, b: Span, c: Span, e: Span, f: Span)
        ensures { Lays self.old (λ d. text14 lead.now d a b c e f ∷ []) (a ∷ b ∷ c ∷ e ∷ f ∷ []) self.new }
    {
        if any_there(&[a, b, c, e, f]) {
            self.add(lead);
            self.add_part(a);
            self.add(b"/");
            self.add_part(b);
            self.add_part(c);
            self.add_part(e);
            self.add_part(f);
        }
    }

    pub fn add_15(&mut self, lead: &[u8], a: Span, b: Span, c: Span)
        ensures { Lays self.old (λ d. text15 lead.now d a b c ∷ []) (a ∷ b ∷ c ∷ []) self.new }
    {
        if any_there(&[a, b, c]) {
            self.add(lead);
            self.add_part(a);
            self.add_part(b);
            self.add(b" ");
            self.add_part(c);
        }
    }

    pub fn add_alternates(&mut self, a: Span, b: Span)
        ensures { Lays self.old (λ d. text_alternates d a b ∷ []) (a ∷ b ∷ []) self.new }
    {
        self.add_two(b" ", a, b" ", b);
    }

    pub fn add_16(&mut self, lead: &[u8], a: Span, b: Span, c: Span, e: Span)
        ensures { Lays self.old (λ d. text16 lead.now d a b c e ∷ []) (a ∷ b ∷ c ∷ e ∷ []) self.new }
    {
        if any_there(&[a, b, c, e]) {
            self.add(lead);
            self.add_part(a);
            self.add_part(b);
            self.add_alternates(c, e);
        }
    }

    #[inline(always)]
    pub fn add_18(&mut self, lead: &[u8], a: Span, b: Span)
        ensures { Lays self.old (λ d. text18 lead.now d a b ∷ []) (a ∷ b ∷ []) self.new }
    {
        self.add_two(lead, a, b"/", b);
    }
}
