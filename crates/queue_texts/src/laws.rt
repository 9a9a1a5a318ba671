// What holds of the definitions alone, whatever code there is. A call of a law runs nothing: it
// hands the law's facts to the proof of its caller.
ghost use Rattle.queue_texts.specs.Laws.{ItemsAreReadBack, LinesAreReadBack, LinesAreReadOnce, OneTextOfAWalk, PrefixIsLawful, SumsAgree, WrittenIsSpelled};
ghost use Rattle.queue_texts.specs.Audit.{LawfulIsNotRefused, NarrowIsWide};

/// An item that is written is read back.
pub fn law_items_are_read_back()
    ensures { ItemsAreReadBack }
{}

/// A journal line that is written is read back: the text of each line spells that line, under its
/// number.
pub fn law_lines_are_read_back()
    ensures { LinesAreReadBack }
{}

/// What is written of a journal spells it, however large its numbers are. So an audit takes what `write_journal` wrote of a
/// lawful one.
pub fn law_written_is_spelled()
    ensures { WrittenIsSpelled }
{}

/// A text is read as one journal line, or as none.
pub fn law_lines_are_read_once()
    ensures { LinesAreReadOnce }
{}

/// A schedule of `walk`, with scans of one kind, has one text and one ending, where no fault comes and memory is not
/// refused.
pub fn law_one_text_of_a_walk()
    ensures { OneTextOfAWalk }
{}

/// What spells a lawful journal of narrow items spells it as one of wide items, too.
pub fn law_narrow_is_wide()
    ensures { NarrowIsWide }
{}

/// No line of a lawful journal is refused: so an audit that isn't cut short reports exactly where
/// its input is a lawful journal.
pub fn law_lawful_is_not_refused()
    ensures { LawfulIsNotRefused }
{
    law_lines_are_read_once();
}

/// The sums of a report agree: what was put in, by pushes and moves, was taken out, by pops, removals and moves, or is left.
pub fn law_sums_agree()
    ensures { SumsAgree }
{}

/// A prefix of a lawful journal is a lawful one.
pub fn law_prefix_is_lawful()
    ensures { PrefixIsLawful }
{}
