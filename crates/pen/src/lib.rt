// Lays a text out part by part.
#![tactic(auto)]

ghost use Rattle.std.specs.Prelude.{◌≡◌, [], ◌∷◌, Some};
ghost use Rattle.reader.specs.Reading.{cut};
ghost use Rattle.pen.specs.Laying.{Lays, led_by, text_number};

use scan::Span;

pub mod field_texts;

// Where a text ends that is being laid out; none, from the first piece on that could not be added.
pub type Pen = Option<usize>;

// A text that is being laid out in a buffer, of parts of a source and of what stands between them.
#[derive(Drop)]
pub struct Sheet<'a> {
    text: &'a mut [u8],
    source: &'a [u8],
    pub end: Pen,
}

impl<'a> Sheet<'a> {
    // Nothing is laid out yet.
    pub fn start(text: &'a mut [u8], source: &'a [u8]) -> Sheet<'a>
        ensures buffer { result.text.ghost_name ≡ text.entry.ghost_name }
        ensures text { result.text.now ≡ text.old }
        ensures source { result.source.now ≡ source.now }
        ensures end { result.end ≡ Some 0 }
    {
        Sheet {
            text,
            source,
            end: Some(0),
        }
    }

    // Adds bytes.
    pub fn add(&mut self, src: &[u8])
        ensures { Lays self.old (λ _. src.now ∷ []) [] self.new }
    {
        let Some(at) = self.end else {
            return;
        };
        if self.text.len() < at || self.text.len() - at < src.len() {
            self.end = None;
            return;
        }
        self.end = Some(splice::put(self.text, at, src));
    }

    // Adds a part; one that is there has to lie within the source.
    pub fn add_part(&mut self, q: Span)
        ensures { Lays self.old (λ d. cut d q ∷ []) (q ∷ []) self.new }
    {
        let at = (q / 65536) as usize;
        let len = (q % 65536) as usize;
        if len == 0 {
            return;
        }
        match self.source.get(at..at + len) {
            Some(part) => self.add(part),
            None => self.end = None,
        }
    }

    // Adds a part with what leads it, where it is there.
    pub fn add_led(&mut self, lead: &[u8], a: Span)
        ensures { Lays self.old (λ d. led_by lead.now d a ∷ []) (a ∷ []) self.new }
    {
        if a % 65536 == 0 {
            return;
        }
        self.add(lead);
        self.add_part(a);
    }

    #[inline(always)]
    pub fn add_number(&mut self, a: Span, b: Span, c: Span)
        ensures { Lays self.old (λ d. text_number d a b c ∷ []) (a ∷ b ∷ c ∷ []) self.new }
    {
        self.add_part(a);
        self.add(b"/");
        self.add_part(b);
        self.add_part(c);
    }
}
