// The head as the bytes that a C program lends.
ghost use Rattle.std.specs.Prelude.{◌≡◌, length};
ghost use Rattle.packed.specs.Head.{head_in, head_bytes};

use head::Head;

// The head that stands in 12 bytes.
pub fn head_in(b: &[u8]) -> Head
    requires { length b.now ≡ 12 }
    ensures { (result ≡ head_in b.now) × (head_bytes (head_in b.now) ≡ b.now) }
{
    Head {
        ours: [b[0], b[1], b[2], b[3]],
        partners: [b[4], b[5], b[6], b[7]],
        next: crate::unpacked::figure_in(b, 4),
        highest: crate::unpacked::figure_in(b, 5),
    }
}

// Writes a head over 12 bytes.
pub fn put_head(b: &mut [u8], h: Head)
    requires { length b.old ≡ 12 }
    ensures { b.new ≡ head_bytes h }
{
    let ours = h.ours;
    let partners = h.partners;
    splice::put(b, 0, &ours);
    splice::put(b, 4, &partners);
    crate::put_one(b, 4, h.next);
    crate::put_one(b, 5, h.highest);
}
