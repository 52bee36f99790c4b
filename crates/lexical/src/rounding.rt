// Rounding from thousandths to hundredths. Whatever rounds calls this.
ghost use Rattle.std.specs.Prelude.{◌≡◌, ◌^◌, ◌≤◌};
ghost use Rattle.lexical.specs.Rounding.{nearest, hundredths};

// A tenth of a magnitude, a half up.
fn nearest(n: u32) -> u32
    requires { n ≤ 2 ^ 31 }
    ensures { result ≡ nearest n }
{
    (n + 5) / 10
}

// Hundredths for thousandths: the nearest, a half away from zero.
pub fn hundredths(thousandths: i32) -> i32
    ensures { result ≡ hundredths thousandths }
{
    let size = nearest(thousandths.unsigned_abs()) as i32;
    if thousandths < 0 { -size } else { size }
}
