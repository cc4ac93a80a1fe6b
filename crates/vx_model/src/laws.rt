//! What calls do to names, in a file system's own words.
ghost use Rattle.std.specs.Prelude.{◌≡◌, ◌≢◌, ◌↔◌, ◌*◌, ℕ, List, true, Some, Ok, Err, IsSome, Contains, length};
ghost use Rattle.std.specs.FinMap as map;
ghost use Rattle.vx_base.specs.declared.call.Call.{Call};
ghost use Rattle.vx_base.specs.declared.call.Call.TheVariants as call;
ghost use Rattle.vx_base.specs.declared.refusal.Refusal.{Refusal};
ghost use Rattle.vx_base.specs.declared.refusal.Refusal.TheVariants as no;
ghost use Rattle.vx_base.specs.Paths.{FileName};
ghost use Rattle.vx_base.specs.declared.reply.Reply.TheVariants as say;
ghost use Rattle.vx_base.specs.declared.event.Event.{Event};
ghost use Rattle.vx_model.specs.Legal.{opening, with_released, after_all};
ghost use Rattle.vx_model.specs.State.{State, Done, fresh};
ghost use Rattle.vx_model.specs.Removing.{fine};
ghost use Rattle.vx_model.specs.Settling.{settle};
ghost use Rattle.vx_model.specs.Step.{is_for_mount, step};
ghost use Rattle.vx_model.specs.Tree.{File, Directory, IsFile, IsDirectory, new_file, new_directory};
ghost use Rattle.vx_model.specs.NameLaws.{lookup, IsCreated, IsLinked, IsModeSet, IsRemoved, IsRenamed, GoesIntoItself, name_count, HasLinks, HasNoLoops};
ghost use Rattle.vx_model.specs.Walks.{inode_of};

/// A call that is refused leaves everything as it was.
pub fn refused_leaves()
    ensures { (s : State) (place session : ℕ) (c : Call) (done : Done) (why : Refusal) → step s place session c ≡ Some done → done.reply ≡ say.Refused why → done.state ≡ s }
{}

/// A call that only asks leaves everything as it was.
pub fn asking_leaves()
    ensures stat { (s : State) (place session : ℕ) (path : List ℕ) (done : Done) → step s place session (call.Stat path) ≡ Some done → done.state ≡ s }
    ensures list { (s : State) (place session : ℕ) (path : List ℕ) (done : Done) → step s place session (call.List path) ≡ Some done → done.state ≡ s }
    ensures mount { (s : State) (place session : ℕ) (c : Call) (done : Done) → is_for_mount c ≡ true → step s place session c ≡ Some done → done ≡ fine s }
{}

/// What a create or a mkdir makes has the path's name, and all else is as it was.
pub fn created_is_listed()
    ensures create { (s : State) (place session : ℕ) (path : List ℕ) (mode ino : ℕ) (done : Done) → step s place session (call.Create path mode) ≡ Some done → done.reply ≡ say.Made ino
        → IsCreated s.tree.nodes done.state.tree.nodes path (new_file mode) ino }
    ensures mkdir { (s : State) (place session : ℕ) (path : List ℕ) (mode ino : ℕ) (done : Done) → step s place session (call.Mkdir path mode) ≡ Some done → done.reply ≡ say.Made ino
        → IsCreated s.tree.nodes done.state.tree.nodes path (new_directory mode) ino }
{}

/// A link gives a file one name more, and all else is as it was.
pub fn linked_has_one_name_more()
    ensures { (s : State) (place session : ℕ) (from to : List ℕ) (done : Done) → step s place session (call.Link from to) ≡ Some done → done.reply ≡ say.Fine → IsLinked s.tree.nodes done.state.tree.nodes from to }
{}

/// A chmod sets the mode of what the path names, and all else is as it was.
pub fn chmod_sets_one_mode()
    ensures { (s : State) (place session : ℕ) (path : List ℕ) (mode : ℕ) (done : Done) → step s place session (call.Chmod path mode) ≡ Some done → done.reply ≡ say.Fine
        → IsModeSet s.tree.nodes done.state.tree.nodes path mode }
{}

/// What stat answers: of a file its mode, the number of its names and its size, of a directory its mode and its number of names;
/// or why the path leads nowhere.
pub fn stat_tells()
    ensures file { (s : State) (place session : ℕ) (path : List ℕ) (ino : ℕ) (f : File) (done : Done) → HasLinks s → step s place session (call.Stat path) ≡ Some done → inode_of s.tree.nodes path ≡ Ok ino
        → map.get s.tree.nodes ino ≡ Some (IsFile f) → done.reply ≡ say.FileStat ino f.mode (name_count s.tree.nodes (128 * s.layout.units) ino) (length f.bytes) }
    ensures directory { (s : State) (place session : ℕ) (path : List ℕ) (ino : ℕ) (d : Directory) (done : Done) → step s place session (call.Stat path) ≡ Some done → inode_of s.tree.nodes path ≡ Ok ino
        → map.get s.tree.nodes ino ≡ Some (IsDirectory d) → done.reply ≡ say.DirStat ino d.mode (map.len d.entries) }
    ensures refused { (s : State) (place session : ℕ) (path : List ℕ) (why : Refusal) (done : Done) → step s place session (call.Stat path) ≡ Some done → inode_of s.tree.nodes path ≡ Err why
        → done.reply ≡ say.Refused why }
{}

/// What list answers: the names of a directory in their order, which are those that mean something there; or why there are none.
pub fn list_tells()
    ensures names { (s : State) (place session : ℕ) (path : List ℕ) (ino : ℕ) (d : Directory) (done : Done) → step s place session (call.List path) ≡ Some done → inode_of s.tree.nodes path ≡ Ok ino
        → map.get s.tree.nodes ino ≡ Some (IsDirectory d) → done.reply ≡ say.Listing (map.keys d.entries) }
    ensures listed { (s : State) (ino : ℕ) (d : Directory) → map.get s.tree.nodes ino ≡ Some (IsDirectory d) → (x : FileName) → Contains (map.keys d.entries) x ↔ IsSome (lookup s.tree.nodes ino x) }
    ensures file { (s : State) (place session : ℕ) (path : List ℕ) (ino : ℕ) (f : File) (done : Done) → step s place session (call.List path) ≡ Some done → inode_of s.tree.nodes path ≡ Ok ino
        → map.get s.tree.nodes ino ≡ Some (IsFile f) → done.reply ≡ say.Refused no.NotDir }
    ensures refused { (s : State) (place session : ℕ) (path : List ℕ) (why : Refusal) (done : Done) → step s place session (call.List path) ≡ Some done → inode_of s.tree.nodes path ≡ Err why
        → done.reply ≡ say.Refused why }
{}

/// What an unlink or a rmdir removes is gone, and each other name means what it meant.
pub fn removed_is_gone()
    ensures unlink { (s : State) (place session : ℕ) (path : List ℕ) (done : Done) → step s place session (call.Unlink path) ≡ Some done → done.reply ≡ say.Fine → IsRemoved s.tree done.state.tree.nodes path }
    ensures rmdir { (s : State) (place session : ℕ) (path : List ℕ) (done : Done) → step s place session (call.Rmdir path) ≡ Some done → done.reply ≡ say.Fine → IsRemoved s.tree done.state.tree.nodes path }
{}

/// A rename moves one name, and onto another name of the same inode none.
pub fn renamed_moves_one_name()
    ensures moves { (s : State) (place session : ℕ) (from to : List ℕ) (done : Done) → step s place session (call.Rename from to) ≡ Some done → done.reply ≡ say.Fine
        → inode_of s.tree.nodes to ≢ inode_of s.tree.nodes from → IsRenamed s.tree done.state.tree.nodes from to }
    ensures stays { (s : State) (place session : ℕ) (from to : List ℕ) (done : Done) → step s place session (call.Rename from to) ≡ Some done → done.reply ≡ say.Fine
        → inode_of s.tree.nodes to ≡ inode_of s.tree.nodes from → done.state ≡ s }
{}

/// A rename is refused as one into itself exactly where what moves is the directory that it would go to, or stands above that.
pub fn nothing_goes_into_itself()
    ensures refused { (s : State) (place session : ℕ) (from to : List ℕ) (done : Done) → HasLinks s → step s place session (call.Rename from to) ≡ Some done → GoesIntoItself s.tree.nodes from to
        → done.reply ≡ say.Refused no.IntoItself }
    ensures only { (s : State) (place session : ℕ) (from to : List ℕ) (done : Done) → step s place session (call.Rename from to) ≡ Some done → done.reply ≡ say.Refused no.IntoItself → GoesIntoItself s.tree.nodes from to }
{}

/// In a new file system and all that calls make of it, link numbers are the numbers of names.
pub fn link_numbers()
    ensures fresh { (log_blocks limit sectors : ℕ) → HasLinks (fresh log_blocks limit sectors) }
    ensures step { (s : State) (place session : ℕ) (c : Call) (done : Done) → HasLinks s → step s place session c ≡ Some done → HasLinks done.state }
    ensures settled { (s : State) (place ino : ℕ) → HasLinks s → HasLinks (settle s place ino) }
    ensures released { (s : State) (upto : ℕ) → HasLinks s → HasLinks (with_released s upto) }
    ensures history { (log_blocks limit sectors at : ℕ) (events : List Event) → HasLinks (after_all (opening at (fresh log_blocks limit sectors)) events).state }
{}

/// In a new file system and all that calls make of it, no inode is below itself.
pub fn loops()
    ensures step { (s : State) → HasLinks s → HasNoLoops s.tree.nodes → (place session : ℕ) (c : Call) (done : Done) → step s place session c ≡ Some done → HasNoLoops done.state.tree.nodes }
    ensures history { (log_blocks limit sectors at : ℕ) (events : List Event) → HasNoLoops (after_all (opening at (fresh log_blocks limit sectors)) events).state.tree.nodes }
{}
