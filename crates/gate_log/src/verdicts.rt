//! The law that an opening finds one thing in each image.
ghost use Rattle.gate_log.specs.Verdicts.{OneList, NotDamaged, NotMissing, OneDamage, DamageNotMissing};

/// Of each image one verdict holds at most: it stands for one list of entries, or one entry of it is the first that
/// is damaged, or its first gate isn't open. So `open` answers Ok, Damaged and NoRepository only where its clauses
/// say so, and there always but for the device and memory.
pub fn one_verdict()
    ensures one_list { OneList }
    ensures not_damaged { NotDamaged }
    ensures not_missing { NotMissing }
    ensures one_damage { OneDamage }
    ensures damage_not_missing { DamageNotMissing }
{}
