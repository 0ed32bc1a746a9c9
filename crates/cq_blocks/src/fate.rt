//! What becomes of an element where those that a test finds equal are tested by another.

ghost use Rattle.std.specs.Prelude.{Bool};
ghost use Rattle.std.specs.Fn.{ComputesKey};
ghost use Rattle.std.specs.Ordering.{is_eq};
ghost use Rattle.cq_blocks.specs.Fate.{IsFate};

use std::cmp::Ordering;

/// What becomes of an element.
pub(crate) enum Fate {
    /// It is equal and passes.
    Stays,
    /// It is equal and does not pass.
    Goes,
    /// It is not equal: it and those after it stay.
    Ends,
}

/// Tells what becomes of the element.
pub(crate) fn fate_of<T, F: FnMut(&T) -> Ordering, P: FnMut(&T) -> bool>(
    element: &T,
    order: &mut F,
    pred: &mut P,
) -> Fate
    requires order { F.IsAlwaysCallable order.old }
    requires pred { P.IsAlwaysCallable pred.old }
    ensures order { F.IsAlwaysCallable order.new }
    ensures pred { P.IsAlwaysCallable pred.new }
    ensures fate { (ord : T → Ordering) (p : T → Bool) → ComputesKey F.FnMut ord order.old → ComputesKey P.FnMut p pred.old → ComputesKey F.FnMut ord order.new × ComputesKey P.FnMut p pred.new × IsFate (is_eq (ord element.now)) (p element.now) result }
{
    if !order(element).is_eq() {
        return Fate::Ends;
    }
    if pred(element) {
        Fate::Stays
    } else {
        Fate::Goes
    }
}
