// Bytes divided at a separator: where the first part ends.
#![tactic(auto)]

ghost use Rattle.std.specs.Prelude.{◌≡◌, ◌+◌, ◌≤◌, max, length, drop};
ghost use Rattle.split.specs.Divide.{span};

// How many bytes of `s` stand before the first `separator`: all of them where there is none.
pub fn span_of(s: &[u8], separator: u8) -> usize
    ensures { (result ≡ span separator s.now) × (result ≤ length s.now) }
{
    s.iter().position(|b| *b == separator).unwrap_or(s.len())
}

// Where the part that starts at offset `a` ends: at `a` itself where that is past the last byte.
pub fn end_of(s: &[u8], separator: u8, a: usize) -> usize
    ensures value { result ≡ a + span separator (drop a s.now) }
    ensures within { (a ≤ result) × (result ≤ max a (length s.now)) }
{
    if s.len() < a {
        return a;
    }
    a + span_of(&s[a..], separator)
}
