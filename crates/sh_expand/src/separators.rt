//! The bytes that separate fields (XCU 2.5.3).

ghost use Rattle.std.specs.Prelude.{◌≡◌};
ghost use Rattle.sh_expand.specs.Separators.{ifs_of};

use sh_arith::Env;

/// The bytes of IFS, by which fields are split (XCU 2.6.5), and lines by `read`: space, tab and newline where it is unset. Where it is
/// empty there are none.
pub fn ifs_of(env: &Env) -> &[u8]
    ensures { result.now ≡ ifs_of env.now }
{
    match env.get(b"IFS") {
        Some(text) => text,
        None => b" \t\n",
    }
}
