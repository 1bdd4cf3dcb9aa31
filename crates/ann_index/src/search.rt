// Searches of what is shown.
ghost use Rattle.std.specs.Prelude.{◌≡◌, ◌≢◌, Bool, length, IsErrOf, OnErr};
ghost use Rattle.ann_types.specs.Lists.{BasedList};
ghost use Rattle.ann_beam.specs.Found.{IsSearched};
ghost use Rattle.ann_beam.specs.declared.refused.SearchRefused.TheVariants.{Dimension, Disk};
ghost use Rattle.ann_vault.specs.Counted.{CountsFault};
ghost use Rattle.ann_view.specs.Search.{from_near, nothing_found, quest_in};
ghost use Rattle.ann_index.specs.Index.{IsIndexOf};
ghost use Rattle.ann_index.specs.Searched.{HasSearched, standing_of};

use crate::index::Index;
use ann_beam::SearchRefused;
use ann_disk::LogFile;
use ann_showing::show_all;
use ann_types::Ask;
use ann_vault::{Eye, Vault};
use ann_view::Found;

impl<F: LogFile, V: Vault, E: Eye<Seal = V::Seal>> Index<F, V, E> {
    /// Finds the `k` points nearest to a vector, by walks of width `l`, and leaves them on the desk ([`Index::hits`]). What is
    /// answered tells of how many entries they are the answer. Takes no memory but to show what waits, and where there is none,
    /// the answer is that of a shorter list.
    ///
    /// # Errors
    ///
    /// `Dimension` exactly where the vector hasn't as many components as the index's; `Disk` where the eye failed; and
    /// `BadSegment` where a block that it has read isn't in the format. The desk is then empty.
    pub fn search(&mut self, ask: &Ask) -> Result<Found, SearchRefused>
        ensures found { (sound : Bool) (h shown : BasedList)
            → IsIndexOf F.LogFile V.Seal.tells V.Seal.bytes V.held sound h shown self.old.kept
            → HasSearched F.LogFile V.Seal.tells V.Seal.bytes V.held E.reads
            sound h shown ask.now self.old self.new result }
        ensures log { self.new.kept.journal.log ≡ self.old.kept.journal.log }
        ensures stock { self.new.kept.stock ≡ self.old.kept.stock }

        // Where the lengths differ that is answered, and nothing is read.
        ensures differ { length ask.now.vector ≢ self.old.kept.journal.log.params.d →
            IsErrOf result (Dimension (length ask.now.vector) self.old.kept.journal.log.params.d)
            × (self.new.eye ≡ self.old.eye) }
        ensures searched { length ask.now.vector ≡ self.old.kept.journal.log.params.d →
            IsSearched V.Seal.tells V.Seal.bytes (quest_in self.new.kept.view ask.now)
            (from_near self.new.kept.view ask.now (standing_of E.reads E.faults self.old))
            (standing_of E.reads E.faults self.new) result }
        // The eye's count of faults rises by one where the answer is `Disk`, and else stays.
        ensures cause { CountsFault (λ why. why ≡ Disk) result
            (E.faults self.old.eye) (E.faults self.new.eye) }
        ensures limit { self.new.result.limit ≡ ask.now.k }
        ensures emptied { OnErr result (self.new.result ≡ nothing_found ask.now.k) }
    {
        // Without memory the view shows what it can.
        let _shown = show_all(&mut self.ledger.journal, &mut self.view);
        self.view.search(&mut self.desk, &mut self.eye, ask)
    }
}
