// The bytes of a view, as a part of those that were lent.
ghost use Rattle.std.specs.Prelude.{◌≡◌};
ghost use Rattle.table.specs.Lent.{lies_in, viewed};

use crate::View;

// Whether a view lies in the lent bytes. Its offset and length are summed without wrapping.
pub fn lies_in(lent: &[u8], v: View) -> bool
    ensures { result ≡ lies_in lent.now v }
{
    let at = v.at;
    let len = v.len;
    if lent.len() < at {
        return false;
    }
    len <= lent.len() - at
}

// The bytes that a view names; none of them where it reaches outside the lent ones.
pub fn view(lent: &[u8], v: View) -> &[u8]
    ensures { result.now ≡ viewed lent.now v }
{
    if !lies_in(lent, v) {
        return &lent[0..0];
    }
    let at = v.at;
    let end = at + v.len;
    &lent[at..end]
}
