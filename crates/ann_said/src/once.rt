// A client without company.
ghost use Rattle.std.specs.Prelude.{◌≤◌, List, length};
ghost use Rattle.ann_types.specs.Index.{Index};
ghost use Rattle.ann_types.specs.Lists.{empty_list};
ghost use Rattle.ann_script.specs.Allowed.{IsScriptOf};
ghost use Rattle.ann_script.specs.Script.{Client};
ghost use Rattle.ann_script.specs.declared.verbs.Verbs.TheVariants.{Once};
ghost use Rattle.ann_once.specs.Once.{once_text};
ghost use Rattle.ann_said.specs.Alone.{list_of};
ghost use Rattle.ann_said.specs.Said.{Said};

/// What `once` says of a script is what a run says that began with the empty list.
pub fn alone()
    ensures { (index : Index) (script : List Client) → IsScriptOf Once script → length script ≤ 1
        → Said index empty_list (list_of index script) script (once_text index script) }
{}
