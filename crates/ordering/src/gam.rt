// The memory model GAM.
ghost use Rattle.ordering.specs.Tests.{gam_keeps};
ghost use Rattle.ordering.specs.Forward.{gam_forward};

use super::pair::EventPair;
use super::rule::OrderingRule;

/// GAM: two events are kept in their order by one of seven constraints.
#[derive(Clone, Copy)]
pub struct Gam;

impl OrderingRule for Gam {
    ghost keeps = { λ _. gam_keeps };

    ghost forward = { λ r. gam_forward };

    #[tactic(auto, unfolding(crate::specs::Tests::gam_keeps))]
    fn directly(&self, pair: EventPair<'_>) -> bool {
        pair.sa_mem_st()
            || pair.sa_st_ld()
            || pair.sa_ld_ld()
            || pair.reg_raw()
            || pair.br_st()
            || pair.addr_st()
            || pair.fence_ord()
    }
}
