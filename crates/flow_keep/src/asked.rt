ghost use Rattle.std.specs.Prelude.{◌≡◌, ◌-◌, ◌^◌, ◌<◌, false};

use crate::keep::Keep;
use flow_ask::{Answer, Ask};
use flow_core::{Asked, Core};
use flow_disk::Disk;

impl<D: Disk, R: Asked> Asked for Keep<D, R> {
    ghost use Rattle.std.proofs.Common.{refl};
    ghost use Rattle.flow_keep.specs.Answered.{KeepAnswers, CountsDisk, LeavesKept};
    ghost use Rattle.flow_keep.specs.Holding.{run_of, disk_of, is_broken};

    ghost run = { λ k. R.run (run_of k) };

    ghost can_be_asked = { λ k. R.can_be_asked (run_of k) × (is_broken k ≡ false → D.faults (disk_of k) < 2 ^ 64 - 1) };

    ghost answers = { λ k ask by answer after. KeepAnswers R.run R.answers (is_broken k) (run_of k) ask by answer (is_broken after) (run_of after)
        × CountsDisk (is_broken k) (is_broken after) (D.faults (disk_of k)) (D.faults (disk_of after))
        × LeavesKept D.tells D.moment D.image D.seen D.chosen (R.run (run_of k)) (R.run (run_of after)) (disk_of k) (disk_of after) (is_broken k) (is_broken after) };

    ghost is_same = { λ one other. R.is_same (run_of one) (run_of other) × (disk_of other ≡ disk_of one) × (is_broken other ≡ is_broken one) };

    ghost same_self = { λ k. (R.same_self (run_of k), refl, refl) };

    fn core(&self) -> &Core {
        Keep::core(self)
    }

    fn answer(&mut self, ask: Ask, by: u32) -> Answer {
        Keep::answer(self, ask, by)
    }

    fn look_ahead(&mut self) {
        Keep::look_ahead(self);
    }
}
