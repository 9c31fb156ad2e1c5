// A step on the record alone, made on the record that numbers stand for.
ghost use Rattle.std.specs.Fn.{FnOnceReturnsAtMut};
ghost use Rattle.register.specs.Rulings.{Ruled};

use steps::Chain;
use wire::Refusal;

// A step on the record alone: the numbers are those of the record that it leaves, or stay.
pub(crate) fn ruled<F: FnOnce(&mut Chain) -> Result<(), Refusal>>(rec: &mut [u32], step: F) -> u8
    requires { F.IsAlwaysCallable step }
    ensures { Ruled (FnOnceReturnsAtMut F.FnOnce step) rec.old result rec.new }
{
    let mut c = numbers::record_of(rec);
    let done = step(&mut c);
    numbers::settle(rec, wire::number(done), c)
}
