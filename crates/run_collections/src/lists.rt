// Lists with one more and one less.
ghost use Rattle.std.specs.Prelude.{◌≡◌, OnErr, OnOk};
ghost use Rattle.vba_meaning.specs.Collections.{put_at, without_at};

use vba_base::NoMemory;

/// One more at a place, which is the end where there is no such one. Without memory the list stays as it was.
#[tactic(auto, using(crate::proofs::Placed::put_inside, crate::proofs::Placed::put_behind))]
pub fn put_at<T: Drop>(list: &mut Vec<T>, place: usize, item: T) -> Result<(), NoMemory>
    ensures put { OnOk result (list.new.items ≡ put_at place item list.old.items) }
    ensures kept { OnErr result (list.new.items ≡ list.old.items) }
{
    if place < list.len() {
        list.insert(place, item)?;
    } else {
        list.push(item)?;
    }
    Ok(())
}

/// Without the one at a place, where there is one.
#[tactic(auto, using(crate::proofs::Placed::without_inside, crate::proofs::Placed::without_none))]
pub fn remove_at<T: Drop>(list: &mut Vec<T>, place: usize)
    ensures { list.new.items ≡ without_at place list.old.items }
{
    if place < list.len() {
        let _item = list.remove(place);
    }
}
