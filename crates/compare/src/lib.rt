// Whether two strings are the same, looked at to the last byte.
#![tactic(auto)]

ghost use Rattle.std.specs.Prelude.{◌≡◌, length};
ghost use Rattle.compare.specs.Same.{same};

// Whether two strings are the same. Strings of one length are read to their ends, wherever they differ, which `==` does not promise.
pub fn is_same(x: &[u8], y: &[u8]) -> bool
    ensures { result ≡ same x.now y.now }
{
    if x.len() != y.len() {
        return false;
    }
    difference(x, y) == 0
}

// 0 where two strings of one length are the same: every byte is read, and its difference kept.
fn difference(x: &[u8], y: &[u8]) -> u8
    requires { length x.now ≡ length y.now }
    ensures { (result ≡ 0 → x.now ≡ y.now) × (x.now ≡ y.now → result ≡ 0) }
{
    x.iter().zip(y).fold(0, |d, (a, b)| d | (a ^ b))
}
