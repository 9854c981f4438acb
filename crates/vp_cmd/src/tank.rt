//! The package of `demo`.
ghost use Rattle.std.specs.Prelude.{◌≡◌};
ghost use Rattle.vp_cmd.specs.Tank.{tank};

/// A tank that a flow fills and empties, whose level may not pass its height.
const TANK: &[u8] = b"package 1;
params H;
states x;
controls f;
init x <= H;
inv x <= H;
safe x <= H;
ctrl {f := *; ?f >= -3 & x + 10*f + 10 <= H;} ++ {f := -3;};
time 0 to 10;
flow x' = f;
slack x from -tau to tau;
domain true;
fallback f = -3;
cert init 1 {pos 1 of 2; sum 1 of 1;};
cert safe 1 {pos 1 of 2; sum 1 of 1;};
cert step 1 {pos 10 of 8; sum 1 of 5*1; sum 1 of 4*3; sum 10 of 7;};
cert step 2 {pos 1 of 7; sum 1 of 1; sum 1 of 6; sum 2 of 3; eq 2 times (-tau);};
cert fallback 1 {pos 1 of 4; eq 2 times (-1);};
cert fallback 2 {pos 1 of 4; eq 2 times (1);};
cert fallback 3 {pos 1 of 4; eq 2 times (-1);};
cert fallback 4 {pos 1 of 4; eq 2 times (1);};
";

/// The text of the package of `demo`.
pub(crate) fn tank() -> &'static [u8]
    ensures { result.now ≡ tank }
{
    TANK
}
