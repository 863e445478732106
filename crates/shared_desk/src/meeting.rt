//! Two passes of one session that tell each other what they have seen.

ghost use Rattle.std.specs.Prelude.{◌≡◌, Some};
ghost use Rattle.gate_model.specs.session.Delivered.{delivered};
ghost use Rattle.shared_desk.specs.Marks.{reader_mark, writer_mark};
ghost use Rattle.shared_desk.specs.Meetings.{HaveMet, written_by};
ghost use Rattle.shared_desk.specs.Members.{Stays};
ghost use Rattle.shared_desk.specs.Own.{own_entries};

use crate::member::Member;
use crate::reader::ReaderPass;
use crate::writer::WriterPass;

/// Has two passes of one session meet: both have then seen the longer of what they had seen, which both begin, and know
/// the greater number of entries; all else of both stays. What they have then seen has no Write and no Size of the
/// writer's viewer but the writer's own. It takes no turn and no memory (this project's own rule).
pub fn meet(reader: &mut ReaderPass, writer: &mut WriterPass)
    requires session { writer.old.session ≡ reader.old.session }
    ensures stays { Stays reader.old reader.new × Stays writer.old writer.new }
    ensures marks { (reader.new.view.mark ≡ Some (reader_mark reader.old.viewer)) × (writer.new.view.mark ≡ Some (writer_mark writer.old.viewer)) }
    ensures met { HaveMet reader.old.view writer.old.view reader.new.view writer.new.view }
    ensures delivered { delivered reader.new.view.seen reader.old.viewer ≡ delivered reader.old.view.seen reader.old.viewer }
    ensures own { (own_entries reader.new.view ≡ own_entries reader.old.view) × (own_entries writer.new.view ≡ own_entries writer.old.view) }
    ensures written { written_by writer.old.viewer writer.new.view.seen ≡ written_by writer.old.viewer (own_entries writer.new.view) }
{
    reader.member.meet(&mut writer.member);
}

impl Member {
    // Both have then seen what either had, and know the greater number. It takes no turn.
    fn meet(&mut self, other: &mut Member)
        requires session { other.old.session ≡ self.old.session }
        ensures session { (self.new.session ≡ self.old.session) × (other.new.session ≡ other.old.session) }
        ensures met { HaveMet self.old.view other.old.view self.new.view other.new.view }
    {
        let own = self.lock.split(&mut self.pass, None);
        other.lock.join(&mut other.pass, own);
        let theirs = other.lock.split(&mut other.pass, None);
        self.lock.join(&mut self.pass, theirs);
    }
}
