//! Whether entries can stand together in one tree.
ghost use Rattle.std.specs.Prelude.{◌≡◌, map, IfOk, IfSome};
ghost use Rattle.std.specs.Option.{is_some};
ghost use Rattle.std.specs.List.{list_all};
ghost use Rattle.ps_fakes.specs.Trees.{entries_of};
ghost use Rattle.ps_fakes.specs.Standing.{all_spell_paths, is_on_way_to as is_on_way_to_def, is_tree as is_tree_def, leaves_free as leaves_free_def, site_of, stand_beside as stand_beside_def, stand_together as stand_together_def};

use ps_lines::Memory;
use ps_world::Path;
use std::alloc::{AllocError, Global};

/// Where an entry stands, and whether it is a file.
#[derive(Debug, Drop)]
pub struct Site {
    pub path: Path,
    pub is_file: bool,
}

/// Whether these entries, files with their bytes and directories, make a tree with this home.
///
/// Home and all of them spell normal absolute paths, no path stands twice, and no file's path is home, or a parent, at any
/// height, of home or of another entry.
pub fn is_tree(
    alloc: Global,
    home: &[u8],
    entries: &[(Vec<u8>, Option<Vec<u8>>)],
) -> Result<bool, Memory>
    ensures { IfOk result (λ answer. answer ≡ is_tree_def home.now (entries_of entries.now)) }
{
    let Some(home) = Path::read(alloc, home)? else {
        return Ok(false);
    };
    let Some(sites) = sites_of(alloc, entries)? else {
        return Ok(false);
    };
    let sites = sites.as_slice();
    Ok(all_leave_free(sites, &home) && stand_together(sites))
}

/// Where the entries stand; None where a text spells no path.
fn sites_of(
    alloc: Global,
    entries: &[(Vec<u8>, Option<Vec<u8>>)],
) -> Result<Option<Vec<Site>>, AllocError>
    ensures spelled { IfOk result (λ sites. is_some sites ≡ all_spell_paths (entries_of entries.now)) }
    ensures sites { IfOk result (λ sites. IfSome sites (λ sites. sites.items ≡ map site_of (entries_of entries.now))) }
{
    let mut sites = Vec::new(alloc);
    let mut left = entries;
    while let [first, rest @ ..] = left {
        let Some(path) = Path::read(alloc, first.0.as_slice())? else {
            return Ok(None);
        };
        let is_file = first.1.is_some();
        sites.push(Site { path, is_file })?;
        left = rest;
    }
    Ok(Some(sites))
}

/// Whether no file of these stands on the way to a path.
fn all_leave_free(sites: &[Site], path: &Path) -> bool
    ensures { result ≡ list_all (λ site. leaves_free_def site path.now) sites.now }
{
    sites.iter().all(|site| leaves_free(site, path))
}

/// Whether every two of these stand beside each other.
fn stand_together(sites: &[Site]) -> bool
    ensures { result ≡ stand_together_def sites.now }
{
    let mut left = sites;
    while let [first, rest @ ..] = left {
        if !stand_beside_all(first, rest) {
            return false;
        }
        left = rest;
    }
    true
}

/// Whether all of the others stand beside this one.
fn stand_beside_all(site: &Site, others: &[Site]) -> bool
    ensures { result ≡ list_all (λ other. stand_beside_def site.now other) others.now }
{
    others.iter().all(|other| stand_beside(site, other))
}

/// Whether two have two paths, and neither is a file on the way to the other.
fn stand_beside(site: &Site, other: &Site) -> bool
    ensures { result ≡ stand_beside_def site.now other.now }
{
    site.path != other.path && leaves_free(site, &other.path) && leaves_free(other, &site.path)
}

/// Whether no file stands here on the way to a path.
fn leaves_free(site: &Site, path: &Path) -> bool
    ensures { result ≡ leaves_free_def site.now path.now }
{
    !(site.is_file && is_on_way_to(&site.path, path))
}

/// Whether the one path is the other, or above it.
fn is_on_way_to(path: &Path, other: &Path) -> bool
    ensures { result ≡ is_on_way_to_def path.now other.now }
{
    other.parts.as_slice().starts_with(path.parts.as_slice())
}
