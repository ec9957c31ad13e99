//! Which rows have blocks, with what else is to be known of rows.

ghost use Rattle.std.specs.Prelude.{◌≡◌, ◌<◌, ◌^◌, IfOk, None, OnOk, length, map, replicate};
ghost use Rattle.lfs_fs.specs.Sound.{IsSound};
ghost use Rattle.lfs_listing.specs.BlockMap.{block_users};
ghost use Rattle.lfs_listing.specs.Using.{row_part};

use crate::block_numbers::no_numbers;
use crate::directory_numbers::NumberedDirectories;
use crate::paths::follow_row;
use crate::row_parts::RowParts;
use crate::using::give_row;
use lfs_fs::Mounted;
use lfs_json::Form;
use std::alloc::{AllocError, Global};

/// Notes the number of the row that has each block, and gives what is said of the rows.
fn gather_parts(
    alloc: Global,
    form: Form,
    mounted: &Mounted,
    directories: &NumberedDirectories<'_>,
    users: &mut [Option<usize>],
) -> Result<RowParts, AllocError>
    requires directories { directories.now ≡ mounted.now.outline.directories }
    requires none { users.old ≡ replicate mounted.now.outline.count None }
    ensures users { OnOk result (users.new ≡ block_users mounted.now.outline mounted.now.rows) }
    ensures parts { IfOk result (λ parts. parts ≡ map (row_part form) mounted.now.rows) }
{
    let mut path = Vec::new(alloc);
    let mut parts = RowParts::new(alloc);
    for row in mounted.rows() {
        give_row(users, directories, &row, parts.len());
        follow_row(&mut path, &row)?;
        parts = parts.with_row(alloc, form, &path, &row)?;
    }
    Ok(parts)
}

/// Notes the number of the row that has each block, and gives how many names each row's path has.
fn gather_depths(
    alloc: Global,
    mounted: &Mounted,
    directories: &NumberedDirectories<'_>,
    users: &mut [Option<usize>],
) -> Result<Vec<usize>, AllocError>
    requires directories { directories.now ≡ mounted.now.outline.directories }
    requires none { users.old ≡ replicate mounted.now.outline.count None }
    ensures users { OnOk result (users.new ≡ block_users mounted.now.outline mounted.now.rows) }
    ensures depths { IfOk result (λ depths. depths.items ≡ map (λ r. length r.path) mounted.now.rows) }
{
    let mut path = Vec::new(alloc);
    let mut depths = Vec::new(alloc);
    for row in mounted.rows() {
        give_row(users, directories, &row, depths.len());
        follow_row(&mut path, &row)?;
        depths.push(path.len())?;
    }
    Ok(depths)
}

/// The number of the row that has each block, and what is said of the rows.
pub(crate) fn users_with_parts(
    alloc: Global,
    form: Form,
    mounted: &Mounted,
) -> Result<(Vec<Option<usize>>, RowParts), AllocError>
    requires { IsSound mounted.now.outline }
    ensures users { IfOk result (λ known. known.0.items ≡ block_users mounted.now.outline mounted.now.rows) }
    ensures parts { IfOk result (λ known. known.1 ≡ map (row_part form) mounted.now.rows) }
{
    let outline = mounted.outline();
    let directories = NumberedDirectories::new(alloc, outline)?;
    let mut users = no_numbers(alloc, outline.count)?;
    let parts = gather_parts(alloc, form, mounted, &directories, &mut users)?;
    Ok((users, parts))
}

/// The number of the row that has each block, and how many names each row's path has.
pub(crate) fn users_with_depths(
    alloc: Global,
    mounted: &Mounted,
) -> Result<(Vec<Option<usize>>, Vec<usize>), AllocError>
    requires { IsSound mounted.now.outline }
    ensures users { IfOk result (λ known. known.0.items ≡ block_users mounted.now.outline mounted.now.rows) }
    ensures depths { IfOk result (λ known. known.1.items ≡ map (λ r. length r.path) mounted.now.rows) }
    ensures few { IfOk result (λ known. length known.0.items < 2 ^ 32) }
{
    let outline = mounted.outline();
    let directories = NumberedDirectories::new(alloc, outline)?;
    let mut users = no_numbers(alloc, outline.count)?;
    let depths = gather_depths(alloc, mounted, &directories, &mut users)?;
    Ok((users, depths))
}
