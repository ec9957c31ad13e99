//! The lines of changes and what differs, appended one after another.

ghost use Rattle.std.specs.Prelude.{◌≡◌, ◌++◌, false, OnOk, IfErr};
ghost use Rattle.lfs_block.specs.Disk.{erased_block};
ghost use Rattle.lfs_block.specs.declared.mount_fault.MountFault.TheVariants.{Memory};
ghost use Rattle.lfs_fs.specs.Mounted.{IsMountOf};
ghost use Rattle.lfs_history.specs.declared.open_fault.OpenFault.TheVariants.{Mount};
ghost use Rattle.lfs_session.specs.Known.{HasRoom};
ghost use Rattle.lfs_session.specs.Opened.{RefusesMounts};
ghost use Rattle.lfs_listing.specs.Comparing.{Leads};
ghost use Rattle.lfs_listing.specs.Difference.{difference};
ghost use Rattle.lfs_step.specs.Between.{IsBetween, AppendsChanges, AppendsLater, images_at, images_behind};
ghost use Rattle.lfs_step.specs.Log.{change_line};

use crate::course::Course;
use crate::lines::append_line;
use crate::mounting::mount_image;
use lfs_block::{
    Image, MountFault, Overlay, Patch, applied_patches_change_their_blocks, applied_patches_revert,
    reverted_patches_apply_again,
};
use lfs_fs::Mounted;
use lfs_history::OpenFault;
use lfs_json::Form;
use lfs_listing::{MountedImage, send_difference};
use lfs_sink::MemorySink;
use std::alloc::Global;

/// Adds the line of a change, and what differs between the image before it and the one after it.
fn append_change(
    alloc: Global,
    form: Form,
    number: usize,
    done: usize,
    first: &MountedImage<'_, Image>,
    second: &MountedImage<'_, Overlay<'_, Image>>,
    patch: &Patch,
    text: &mut MemorySink,
) -> Result<(), OpenFault>
    requires works { text.old.has_failed ≡ false }
    requires first { IsMountOf first.now.disk.now.disk first.now.mounted.now }
    requires second { IsMountOf second.now.disk.now second.now.mounted.now }
    requires between { Leads patch.now first.now.disk.now.disk second.now.disk.now }
    ensures appended { OnOk result (text.new.bytes.items ≡ text.old.bytes.items ++ change_line form number done
        ++ difference form first.now.disk.now.disk first.now.mounted.now.rows second.now.disk.now second.now.mounted.now.rows) }
    ensures works { OnOk result (text.new.has_failed ≡ false) }
    ensures memory { IfErr result (λ fault. fault ≡ Mount Memory) }
{
    if !append_line(alloc, form, text, number, done) {
        return Err(OpenFault::Mount(MountFault::Memory));
    }
    match send_difference(
        alloc,
        form,
        first,
        second,
        Some(patch),
        Vec::new(alloc),
        text,
    ) {
        Ok(_) => Ok(()),
        Err(_) => Err(OpenFault::Mount(MountFault::Memory)),
    }
}

/// Appends the changes behind an image, the nearest first: the image stands behind so many of all, and is mounted. It goes on with
/// them, and stands again as it was.
fn append_later(
    alloc: Global,
    image: &mut Image,
    mounted: &mut Mounted,
    course: &Course<'_>,
    at: usize,
    text: &mut MemorySink,
) -> Result<(), OpenFault>
    requires between { IsBetween image.old.disk course.now.patches.now at }
    requires mounted { IsMountOf image.old.disk mounted.old }
    requires room { HasRoom image.old.room course.now.patches.now }
    requires erased { course.now.erased.now ≡ erased_block image.old.disk.size }
    requires works { text.old.has_failed ≡ false }
    ensures appended { OnOk result (AppendsLater course.now.form image.old.disk mounted.old course.now.patches.now at course.now.done
        text.old.bytes.items text.new.bytes.items) }
    ensures refused { IfErr result (λ fault. RefusesMounts fault (images_behind image.old.disk course.now.patches.now at)) }
    ensures disk { image.new.disk ≡ image.old.disk }
    ensures room { image.new.room ≡ image.old.room }
{
    applied_patches_change_their_blocks();
    applied_patches_revert();
    if at >= course.patches.len() {
        return Ok(());
    }
    let patch = &course.patches[at];
    let after = Overlay::after(image, patch, course.erased);
    let next = mount_image(alloc, &after)?;
    let first = MountedImage {
        disk: image,
        mounted,
    };
    let second = MountedImage {
        disk: &after,
        mounted: &next,
    };
    append_change(
        alloc,
        course.form,
        at + 1,
        course.done,
        &first,
        &second,
        patch,
        text,
    )?;
    *mounted = next;
    patch.apply(image);
    let appended = append_later(alloc, image, mounted, course, at + 1, text);
    patch.revert(image);
    appended
}

/// Appends all changes, the oldest first: the image stands behind so many of them. It goes back to the oldest, and stands again as
/// it was.
pub(crate) fn append_changes(
    alloc: Global,
    image: &mut Image,
    course: &Course<'_>,
    at: usize,
    text: &mut MemorySink,
) -> Result<(), OpenFault>
    requires between { IsBetween image.old.disk course.now.patches.now at }
    requires room { HasRoom image.old.room course.now.patches.now }
    requires erased { course.now.erased.now ≡ erased_block image.old.disk.size }
    requires works { text.old.has_failed ≡ false }
    ensures appended { OnOk result (AppendsChanges course.now.form image.old.disk course.now.patches.now at course.now.done
        text.old.bytes.items text.new.bytes.items) }
    ensures refused { IfErr result (λ fault. RefusesMounts fault (images_at image.old.disk course.now.patches.now at)) }
    ensures disk { image.new.disk ≡ image.old.disk }
    ensures room { image.new.room ≡ image.old.room }
{
    reverted_patches_apply_again();
    if at == 0 {
        let mut mounted = mount_image(alloc, image)?;
        return append_later(alloc, image, &mut mounted, course, 0, text);
    }
    let patch = &course.patches[at - 1];
    patch.revert(image);
    let appended = append_changes(alloc, image, course, at - 1, text);
    patch.apply(image);
    appended
}
