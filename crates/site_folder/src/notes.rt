//! What is noted as synced.
ghost use Rattle.std.specs.Prelude.{◌≡◌, ℕ, false};
ghost use Rattle.site_folder.specs.Notes.{IsNoted};

/// What was synced after its last write. Only the rest needs a sync.
#[derive(Drop)]
pub struct Notes {
    /// The folder, after the last file was made in it.
    pub is_listed: bool,
    /// Each of the four files, by its number.
    pub is_synced: [bool; 4],
}

impl Notes {
    /// Nothing is noted, since an earlier process may have left bytes that it did not sync.
    pub fn none() -> Notes
        ensures listed { result.is_listed ≡ false }
        ensures synced { (g : ℕ) → ¬ IsNoted result.is_synced g }
    {
        Notes {
            is_listed: false,
            is_synced: [false; 4],
        }
    }
}
