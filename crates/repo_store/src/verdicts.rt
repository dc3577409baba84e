//! The law that an opening finds one thing in each image.
ghost use Rattle.repo_store.specs.Verdicts.{OneJournal, OneRepository, KeptReopens, ReopensKept, OneText, NotDamaged};
ghost use Rattle.repo_store.specs.Verdicts.{NotMissing, OneDamage, DamageNotMissing};

use dump_text::law::dumps_are_read;

/// Of each image one verdict holds at most: it reopens to one repository, or one entry of it is the first that is
/// damaged, or it has no entry. So `open` answers Ok, Damaged and NoRepository only where its clauses say so, and there
/// always but for the device and memory. And of what an image keeps each revision has one text, so that an export after
/// an opening is the export before the stop.
pub fn one_verdict()
    ensures one_journal { OneJournal }
    ensures one_repository { OneRepository }
    ensures kept_reopens { KeptReopens }
    ensures reopens_kept { ReopensKept }
    ensures one_text { OneText }
    ensures not_damaged { NotDamaged }
    ensures not_missing { NotMissing }
    ensures one_damage { OneDamage }
    ensures damage_not_missing { DamageNotMissing }
{
    dumps_are_read();
    gate_log::one_verdict();
}
