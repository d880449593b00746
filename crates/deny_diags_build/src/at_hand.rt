//! The package of one crate, whose files and folders are found by their shown paths.
ghost use Rattle.std.specs.Prelude.{◌≡◌, ℕ, List, IfOk, option_map};
ghost use Rattle.deny_spec.specs.Unseen.{package_at};
ghost use Rattle.deny_spec.specs.declared.package.Package.{Package};
ghost use Rattle.deny_diags_build.specs.AtHand.{IsAtHand};
ghost use Rattle.deny_spec_report.specs.PackageDiags.{file_shown, folder_shown};

use crate::by_text::ByText;
use deny_base_lists::NoMemory;
use deny_spec::{Package, PackageFile, Seen};
use std::alloc::Global;

/// Takes the package of the crate at a place.
#[derive(Drop)]
pub struct AtHand<'c> {
    pub place: u32,
    files: ByText<'c, PackageFile>,
    folders: ByText<'c, Seen>,
}

impl<'c> AtHand<'c> {
    /// Takes the package of the crate at a place.
    pub fn new(alloc: Global, packages: &'c [Package], place: u32) -> Result<AtHand<'c>, NoMemory>
        ensures { IfOk result (IsAtHand packages.now place) }
    {
        match packages.get(place as usize) {
            Some(seen) => Ok(AtHand {
                place,
                files: ByText::new(alloc, seen.files.as_slice())?,
                folders: ByText::new(alloc, seen.unlisted.as_slice())?,
            }),
            None => Ok(AtHand {
                place,
                files: ByText::of_none(alloc),
                folders: ByText::of_none(alloc),
            }),
        }
    }

    /// Takes the package of the crate at a place, unless it is the present one.
    pub fn turn_to(
        self,
        alloc: Global,
        packages: &'c [Package],
        place: u32,
    ) -> Result<AtHand<'c>, NoMemory>
        requires { IsAtHand packages.now self.place self }
        ensures { IfOk result (IsAtHand packages.now place) }
    {
        if self.place == place {
            return Ok(self);
        }
        AtHand::new(alloc, packages, place)
    }

    /// The first file with this shown path.
    #[tactic(auto, unfolding(deny_spec_report::specs::PackageDiags::file_shown))]
    pub fn file(&self, shown: &str) -> Option<&'c PackageFile>
        ensures { (packages : List Package) (place : ℕ) → IsAtHand packages place self.now
            → option_map (λ file. file.now) result ≡ file_shown (package_at packages place) shown.now }
    {
        self.files.at(shown)
    }

    /// The first folder without a list that has this shown path.
    #[tactic(auto, unfolding(deny_spec_report::specs::PackageDiags::folder_shown))]
    pub fn folder(&self, shown: &str) -> Option<&'c Seen>
        ensures { (packages : List Package) (place : ℕ) → IsAtHand packages place self.now
            → option_map (λ seen. seen.now) result ≡ folder_shown (package_at packages place) shown.now }
    {
        self.folders.at(shown)
    }
}
