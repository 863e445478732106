//! Which letters and signs the set `Faces::More` has.

ghost use Rattle.std.specs.Prelude.{◌≡◌};
ghost use Rattle.gate_model.specs.picture.Letters.{number_of};

/// The runs of their characters: the first of each, the last, and the number of the first among all.
static RUNS: [[u16; 3]; 34] = [
    [0x00a1, 0x017f, 0],
    [0x2010, 0x2015, 223],
    [0x2018, 0x201a, 229],
    [0x201c, 0x201e, 232],
    [0x2020, 0x2022, 235],
    [0x2026, 0x2026, 238],
    [0x2030, 0x2030, 239],
    [0x2032, 0x2033, 240],
    [0x2039, 0x203a, 242],
    [0x203c, 0x203c, 244],
    [0x20ac, 0x20ac, 245],
    [0x2122, 0x2122, 246],
    [0x2190, 0x2195, 247],
    [0x2212, 0x2212, 253],
    [0x2219, 0x221a, 254],
    [0x221e, 0x221e, 256],
    [0x2248, 0x2248, 257],
    [0x2260, 0x2261, 258],
    [0x2264, 0x2265, 260],
    [0x25a0, 0x25a1, 262],
    [0x25aa, 0x25ab, 264],
    [0x25b2, 0x25b3, 266],
    [0x25b6, 0x25b6, 268],
    [0x25b8, 0x25b8, 269],
    [0x25ba, 0x25ba, 270],
    [0x25bc, 0x25bd, 271],
    [0x25c0, 0x25c0, 273],
    [0x25c4, 0x25c4, 274],
    [0x25c6, 0x25c6, 275],
    [0x25cb, 0x25cc, 276],
    [0x25cf, 0x25cf, 278],
    [0x25e6, 0x25e6, 279],
    [0x2713, 0x2714, 280],
    [0x2717, 0x2718, 282],
];

/// The number of a letter or a sign of the set among all of them, counted from 0 in the order of their characters; None
/// for every other character (this project's own set).
#[tactic(auto, unfolding(crate::specs::picture::Letters::number_of))]
pub fn number_of(face: char) -> Option<usize>
    ensures { result ≡ number_of face }
{
    let code = face as usize;
    for i in 0..34 {
        let [first, last, start] = RUNS[i];
        if first as usize <= code && code <= last as usize {
            return Some(start as usize + (code - first as usize));
        }
    }
    None
}
