// Unanswered messages: 16 places of 1,280 bytes.
#![tactic(auto)]

ghost use Rattle.std.specs.Prelude.{◌≡◌, ◌+◌, ◌*◌, ◌≤◌, ◌<◌, length};
ghost use Rattle.scan.specs.Grammar.{place_of, size_of};
ghost use Rattle.scan.specs.Bools.{Decides};
ghost use Rattle.splice.specs.Splice.{splice as spliced};
ghost use Rattle.message.specs.declared.Verdict.{Verdict};
ghost use Rattle.reader.specs.Reading.{Judged, cut};
ghost use Rattle.places.specs.Below.{Below};
ghost use Rattle.places.specs.Bytes.{number_at};
ghost use Rattle.unanswered.specs.Waiting.{waiting, waiting_bytes, free_bytes, waiting_of, is_answer, Proper, place, Apart, FormedAt, Shows, ShowsAt, UnansweredFormed, has_number, found, lowest_free};

use message::{Kind, Record};
use scan::Span;

// What a place shows beside its text: it is not well formed, it is free, or it has the shape of a message.
#[derive(Clone, Copy)]
pub enum Shown {
    Broken,
    Empty,
    Message,
}

// Whether a type answers; no message is none to wait for.
#[tactic(auto, unfolding(crate::specs::Waiting::is_answer))]
pub fn is_answer(k: Kind) -> bool
    ensures { result ≡ is_answer k }
{
    matches!(k, Kind::None | Kind::Rla | Kind::Lam | Kind::Lrm)
}

// Whether a part of a text is a name.
fn is_part(s: &[u8], p: Span, name: &[u8]) -> bool
    requires { place_of p + size_of p ≤ length s.now }
    ensures { Decides result (cut s.now p ≡ name.now) }
{
    let at = (p / 65536) as usize;
    let len = (p % 65536) as usize;
    let end = at + len;
    places::same(&s[at..end], name)
}

// A place by itself.
fn look_at_place(b: &[u8]) -> Shown
    requires { length b.now ≡ 1280 }
    ensures { Shows b.now result }
{
    if b[0] == 0 {
        if places::all_are(b, 0) {
            return Shown::Empty;
        }
        return Shown::Broken;
    }
    if b[0] != 1 {
        return Shown::Broken;
    }
    let n = places::number_at(b, 3);
    if 1275 < n {
        return Shown::Broken;
    }
    let e = 5 + n;
    if !places::all_are(&b[e..], 0) {
        return Shown::Broken;
    }
    Shown::Message
}

// Whether two places are not both used with one number.
fn apart<'a>(a: &'a [u8], b: &'a [u8]) -> bool
    requires { (length a.now ≡ 1280) × (length b.now ≡ 1280) }
    ensures { Decides result (Apart a.now b.now) }
{
    if a[0] == 0 {
        return true;
    }
    if b[0] == 0 {
        return true;
    }
    places::number_at(a, 1) != places::number_at(b, 1)
}

// Whether place i is apart from every lower one.
fn apart_from_lower(t: &[u8], i: usize) -> bool
    requires { (length t.now ≡ 20480) × (i < 16) }
    ensures { Decides result (Below (λ j. Apart (place j t.now) (place i t.now)) i) }
{
    let e = i * 1280;
    let mut ok = true;
    let mut j = 0;
    while j < i {
        let a = j * 1280;
        ok = ok & apart(&t[a..a + 1280], &t[e..e + 1280]);
        j += 1;
    }
    ok
}

// Place i, beside the lower ones.
pub fn look(t: &[u8], i: usize) -> Shown
    requires { (length t.now ≡ 20480) × (i < 16) }
    ensures { ShowsAt t.now i result }
{
    if !apart_from_lower(t, i) {
        return Shown::Broken;
    }
    let a = i * 1280;
    look_at_place(&t[a..a + 1280])
}

// The text of place i.
pub fn text(t: &[u8], i: usize) -> &[u8]
    requires { (length t.now ≡ 20480) × (i < 16) × (number_at 3 (place i t.now) ≤ 1275) }
    ensures { result.now ≡ (waiting_of (place i t.now)).text }
{
    let a = i * 1280;
    let b = &t[a..a + 1280];
    let e = 5 + places::number_at(b, 3);
    &b[5..e]
}

// Whether the text of place i, with its record, may wait for its answer. What is refused has the record of no message.
pub fn is_proper(t: &[u8], i: usize, its: Record, ours: &[u8], partners: &[u8]) -> bool
    requires { (length t.now ≡ 20480) × (i < 16) × (number_at 3 (place i t.now) ≤ 1275) × ((v : Verdict) × Judged (waiting_of (place i t.now)).text v its) }
    ensures { Decides result (Proper ours.now partners.now (waiting_of (place i t.now))) }
{
    let s = text(t, i);
    let a = i * 1280;
    let n = places::number_at(&t[a..a + 1280], 1);
    let k = its.kind;
    let f = its.figures;
    let p = its.parts;
    let u = p.number;
    !is_answer(k)
        & (f.number == n)
        & (n <= 999)
        & is_part(s, u.sender, ours)
        & is_part(s, u.receiver, partners)
}

// Whether place i is well formed and apart from the lower ones. Only what has the shape of a message is read.
fn is_formed(t: &[u8], i: usize, ours: &[u8], partners: &[u8]) -> bool
    requires { (length t.now ≡ 20480) × (i < 16) }
    ensures { Decides result (FormedAt ours.now partners.now t.now i) }
{
    let l = look(t, i);
    match l {
        Shown::Broken => false,
        Shown::Empty => true,
        Shown::Message => {
            let q = reader::read(text(t, i));
            is_proper(t, i, q.record, ours, partners)
        }
    }
}

// Whether every place is well formed and apart from the others.
fn places_formed(t: &[u8], ours: &[u8], partners: &[u8]) -> bool
    requires { length t.now ≡ 20480 }
    ensures { Decides result (Below (FormedAt ours.now partners.now t.now) 16) }
{
    let mut ok = true;
    let mut i = 0;
    while i < 16 {
        ok = ok & is_formed(t, i, ours, partners);
        i += 1;
    }
    ok
}

// Whether the unanswered messages are well formed.
pub fn is_unanswered(t: &[u8], ours: &[u8], partners: &[u8]) -> bool
    ensures { Decides result (UnansweredFormed ours.now partners.now t.now) }
{
    if t.len() != 20480 {
        return false;
    }
    places_formed(t, ours, partners)
}

// Whether a place is used with a number.
fn has_number(b: &[u8], n: usize) -> bool
    requires { length b.now ≡ 1280 }
    ensures { result ≡ has_number n b.now }
{
    (b[0] != 0) & (places::number_at(b, 1) == n)
}

// The lowest place with a number.
pub fn find(t: &[u8], n: usize) -> Option<usize>
    requires { length t.now ≡ 20480 }
    ensures { result ≡ found n t.now }
{
    let mut i = 0;
    while i < 16 {
        let a = i * 1280;
        if has_number(&t[a..a + 1280], n) {
            return Some(i);
        }
        i += 1;
    }
    None
}

// The lowest free place.
pub fn lowest_free(t: &[u8]) -> Option<usize>
    requires { length t.now ≡ 20480 }
    ensures { result ≡ lowest_free t.now }
{
    let mut i = 0;
    while i < 16 {
        if t[i * 1280] == 0 {
            return Some(i);
        }
        i += 1;
    }
    None
}

// Makes place i free.
pub fn free(t: &mut [u8], i: usize)
    requires { (length t.old ≡ 20480) × (i < 16) }
    ensures { t.new ≡ spliced (i * 1280) free_bytes t.old }
{
    splice::fill(t, i * 1280, 1280, 0);
}

// Puts a text that waits for its answer into place i, with its number.
pub fn store(t: &mut [u8], i: usize, n: usize, text: &[u8])
    requires { (length t.old ≡ 20480) × (i < 16) × (n ≤ 999) × (length text.now ≤ 1275) }
    ensures { t.new ≡ spliced (i * 1280) (waiting_bytes (waiting n text.now)) t.old }
{
    let k = text.len();
    let lead = [
        1,
        (n / 256) as u8,
        (n % 256) as u8,
        (k / 256) as u8,
        (k % 256) as u8,
    ];
    let at = splice::put(t, i * 1280, &lead);
    let end = splice::put(t, at, text);
    splice::fill(t, end, 1275 - k, 0);
}
