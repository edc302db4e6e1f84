//! What the clauses of this crate mean for who looks into the folder after a crash.

ghost use Rattle.std.specs.Prelude.{◌≡◌, ◌≢◌, ◌⊎◌, ℕ, List, [], ◌∷◌, None, Some};
ghost use Rattle.disk.specs.Contents as disk;
ghost use Rattle.recording_name.specs.Folder.{Folder, Left, MayLeave, IsMade};
ghost use Rattle.recording_name.specs.Kept.{IsAsAt, IsWhole, Keeps, IsNew, HasOnly, KeepsOrIsWhole, IsSettled, WritesOnly};

/// A crash at a moment that keeps a name leaves there what one before might have left.
pub fn a_kept_name()
    ensures { (f g : Folder) (name : List ℕ) (left : Left) → Keeps f name g → MayLeave g left → IsAsAt f name left }
{}

/// What might have been nothing only, is nothing.
pub fn a_free_name()
    ensures { (f : Folder) (name : List ℕ) (left : Left) → f.recent name ≡ None ∷ [] → IsAsAt f name left → left.names name ≡ None }
{}

/// From a draft that is new on (`make_draft`), while nothing is written but its bytes, and at each
/// moment of `publish`: a crash leaves at the recording's name what one before all that might have
/// left there, or the whole recording.
pub fn a_recording_in_the_making()
    ensures { (f made written g : Folder) (draft path : List ℕ) (file : ℕ) (bytes : List ℕ) (left : Left)
        → path ≢ draft → Keeps f path made → IsNew draft file made → WritesOnly file made written
        → KeepsOrIsWhole written path file bytes g → MayLeave g left
        → IsAsAt f path left ⊎ IsWhole path file bytes left }
{}

/// Once `publish` or `settle` has answered that serving may begin, a crash leaves the whole recording.
pub fn a_settled_recording()
    ensures { (g : Folder) (path : List ℕ) (file : ℕ) (bytes : List ℕ) (left : Left)
        → IsSettled path file g → HasOnly (g.files file) bytes → MayLeave g left → IsWhole path file bytes left }
{}

/// And later, as long as its name isn't given to another file or removed, a crash leaves the file
/// there, with bytes that the rules of a disk say of it.
pub fn a_settled_recording_that_grows()
    ensures { (f g : Folder) (path : List ℕ) (file : ℕ) (left : Left) → IsSettled path file f → g.recent path ≡ f.recent path
        → MayLeave g left → (left.names path ≡ Some file) × disk.MayLeave (g.files file) (left.bytes file) }
{}

/// From a target that is made (`target_at`) on, while nothing is written but its bytes: a crash
/// leaves at its name what one before might have left there, or the file, with bytes that the rules
/// of a disk say of it. That these are no recording before all is there is its writer's promise.
pub fn a_target_in_the_making()
    ensures { (f made written : Folder) (path : List ℕ) (file : ℕ) (left : Left) → IsMade path file f made
        → WritesOnly file made written → MayLeave written left
        → IsAsAt f path left ⊎ ((left.names path ≡ Some file) × disk.MayLeave (written.files file) (left.bytes file)) }
{}
