//! With which counts of an eye the work of a merge may be refused, piece by piece and as a whole.
#![tactic(auto)]

ghost use Rattle.std.specs.Prelude.{◌≡◌};
ghost use Rattle.ann_types.specs.declared.params.Params.{Params};
ghost use Rattle.ann_mdelete.specs.Refusals.{Counts};
ghost use Rattle.ann_mdelete.specs.declared.refused.WorkRefused.{WorkRefused};
ghost use Rattle.ann_mpatch.specs.Source.{Source};
ghost use Rattle.ann_mcause.specs.Causes.{HasGone, IsCause};

use ann_vault::Sealed;

/// The laws of causes: an eye's counts never fall, and a cause behind other work is a cause of all of it.
pub fn causing<S: Sealed>()
    ensures stays { (c : Counts) → HasGone c c }
    ensures goes_on { (a b c : Counts) → HasGone a b → HasGone b c → HasGone a c }
    ensures caused { (source : Source) (params : Params) (a b c : Counts) (why : WorkRefused)
        → HasGone a b → IsCause S.tells source params b c why → IsCause S.tells source params a c why }
{}
