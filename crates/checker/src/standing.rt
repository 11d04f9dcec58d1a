// A claim that breaks no rule.
ghost use Rattle.std.specs.Prelude.{◌≡◌, None};
ghost use Rattle.checker.specs.Acceptance.{claimed, broken_of};

use crate::claim::Claim;

#[derive(Clone, Copy)]
pub struct Standing<'a> {
    pub claim: Claim<'a>,
    ghost free: { claimed broken_of claim ≡ None },
}
