// The remainder of the 4,632 bits of a superframe, framing bits as they are (KIT §15).
ghost use Rattle.std.specs.Prelude.{◌≡◌, ◌+◌, ◌*◌, ◌<◌, ◌≤◌, length};
ghost use Rattle.t1.specs.Raw.{raw};

// twelve octets in front, and nine rows of 63, which are added up: x^504 is 1. A row is 56 bits and seven words, and the
// octets in front count as its last twelve.
pub fn of(octets: &[u8]) -> u64
    requires { length octets.now ≡ 579 }
    ensures { (result ≡ raw octets.now 0) × (result < 64) }
{
    let first = crc::fold::windows(octets, 11, 9, 63);
    let mut row = crc::six::Wide {
        high: 0,
        low: first % 72057594037927936,
    };
    for c in 1..8 {
        row = crc::six::after_word(row, crc::fold::windows(octets, 11 + 8 * c, 9, 63));
    }
    let front = crc::six::Wide {
        high: line::window(octets, 0) >> 32,
        low: line::window(octets, 4),
    };
    crc::six::reduced(crc::six::narrowed(row) ^ crc::six::narrowed(front))
}

// from that at octet i of an image, that o bits on: what is gone counts for x^4632, and that for x^4 + x
pub fn slid(s: &[u8], i: usize, o: usize, at: u64) -> u64
    requires { (i + 587 ≤ length s.now) × (o ≤ 56) × (at ≡ raw s.now (8 * i)) × (at < 64) }
    ensures { (result ≡ raw s.now (8 * i + o)) × (result < 64) }
{
    let gone = line::window(s, i) >> 8 >> (56 - o);
    let come = line::window(s, i + 579) >> 8 >> (56 - o);
    crc::six::reduced((at << o) ^ come ^ (gone << 4) ^ (gone << 1))
}
