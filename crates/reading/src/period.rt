// The period of a lamp that comes and goes: 1 to 600 tenths of a second.
ghost use Rattle.std.specs.Prelude.{◌≤◌};

mod making;

// A number of tenths of a second, 1 to 600: the type has no other value.
#[derive(Clone, Copy, PartialEq, Eq, Debug)]
pub struct Period {
    tenths: u16,
    ghost ok: { (1 ≤ tenths) × (tenths ≤ 600) },
}
