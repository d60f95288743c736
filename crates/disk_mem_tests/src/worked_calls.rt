// Worked examples of the definitions: what each clause says is computed.
ghost use Rattle.std.specs.Prelude.{◌≡◌, ◌∷◌, [], true, false};
ghost use Rattle.disk_model.specs.declared.world.Stream.TheVariants.{Out, Note};
ghost use Rattle.disk_model.specs.Input.{is_at_end, left_after, taken, took};
ghost use Rattle.disk_mem.specs.MemoryInput.{noted, reading_at};
ghost use Rattle.disk_mem.specs.declared.call.Call.TheVariants.{Write, Cut, Sync, Emit};
ghost use Rattle.disk_mem.specs.declared.fails.Fails.TheVariants.{Never, At, From};
ghost use Rattle.disk_mem.specs.Counted.{counted_up};
ghost use Rattle.disk_mem.specs.Fails.{fails_at};
ghost use Rattle.disk_mem.specs.Replay.{filled, start, after_call};
ghost use Rattle.disk_mem.specs.Crashing.{left_by};

// A count at both its ends.
fn counts()
    ensures first { counted_up 0 ≡ 1 }
    ensures stays { counted_up 0xffffffffffffffff ≡ 0xffffffffffffffff }
{}

fn numbers()
    ensures never { fails_at Never 1 ≡ false }
    ensures one { fails_at (At (3 ∷ 5 ∷ [])) 5 ≡ true }
    ensures other { fails_at (At (3 ∷ 5 ∷ [])) 4 ≡ false }
    ensures first { fails_at (From 3) 3 ≡ true }
    ensures before { fails_at (From 3) 2 ≡ false }
{}

// What a disk of the bytes 1 and 2 holds after a call.
fn disks()
    ensures gap { filled 4 (1 ∷ 2 ∷ []) ≡ 1 ∷ 2 ∷ 0 ∷ 0 ∷ [] }
    ensures no_gap { filled 1 (1 ∷ 2 ∷ []) ≡ 1 ∷ 2 ∷ [] }
    ensures written { (after_call (Write 1 (9 ∷ []) true) (start (1 ∷ 2 ∷ []))).disk ≡ 1 ∷ 9 ∷ [] }
    ensures past_the_end { (after_call (Write 3 (9 ∷ []) true) (start (1 ∷ 2 ∷ []))).disk ≡ 1 ∷ 2 ∷ 0 ∷ 9 ∷ [] }
    ensures not_written { (after_call (Write 1 (9 ∷ []) false) (start (1 ∷ 2 ∷ []))).disk ≡ 1 ∷ 2 ∷ [] }
    ensures cut { (after_call (Cut 1 true) (start (1 ∷ 2 ∷ []))).disk ≡ 1 ∷ [] }
    ensures not_cut { (after_call (Cut 1 false) (start (1 ∷ 2 ∷ []))).disk ≡ 1 ∷ 2 ∷ [] }
{}

// What is pending, also after a call that failed.
fn pendings()
    ensures write { (after_call (Write 3 (9 ∷ []) false) (start (1 ∷ 2 ∷ []))).pending.greatest ≡ 4 }
    ensures cut { (after_call (Cut 1 false) (start (1 ∷ 2 ∷ []))).pending.least ≡ 1 }
    ensures synced { (after_call (Sync true) (after_call (Cut 1 true) (start (1 ∷ 2 ∷ [])))).pending.synced ≡ 1 ∷ [] }
    ensures not_synced { (after_call (Sync false) (after_call (Cut 1 true) (start (1 ∷ 2 ∷ [])))).pending.synced ≡ 1 ∷ 2 ∷ [] }
{}

// What the streams have got after an emit of three bytes.
fn streams()
    ensures sent { (after_call (Emit Out (1 ∷ 2 ∷ 3 ∷ []) 2 true) (start [])).sent ≡ 1 ∷ 2 ∷ [] }
    ensures apart { (after_call (Emit Out (1 ∷ 2 ∷ 3 ∷ []) 2 true) (start [])).noted ≡ [] }
    ensures noted { (after_call (Emit Note (1 ∷ 2 ∷ 3 ∷ []) 2 true) (start [])).noted ≡ 1 ∷ 2 ∷ [] }
    ensures not_sent { (after_call (Emit Out (1 ∷ 2 ∷ 3 ∷ []) 0 false) (start [])).sent ≡ [] }
{}

// What takes into buffers of several sizes give, and leave.
fn takes()
    ensures part { taken 1 ((7 ∷ 8 ∷ []) ∷ []) ≡ 7 ∷ [] }
    ensures rest { left_after 1 ((7 ∷ 8 ∷ []) ∷ (9 ∷ []) ∷ []) ≡ (8 ∷ []) ∷ (9 ∷ []) ∷ [] }
    ensures whole { taken 4 ((7 ∷ 8 ∷ []) ∷ (9 ∷ []) ∷ []) ≡ 7 ∷ 8 ∷ [] }
    ensures gone { left_after 2 ((7 ∷ 8 ∷ []) ∷ (9 ∷ []) ∷ []) ≡ (9 ∷ []) ∷ [] }
    ensures no_room { left_after 0 ((7 ∷ []) ∷ []) ≡ (7 ∷ []) ∷ [] }
    ensures end { taken 4 [] ≡ [] }
    ensures empty_piece { taken 4 ([] ∷ (9 ∷ []) ∷ []) ≡ [] }
    ensures for_good { left_after 4 ([] ∷ (9 ∷ []) ∷ []) ≡ [] ∷ (9 ∷ []) ∷ [] }
    ensures no_end { is_at_end ((7 ∷ []) ∷ []) ≡ false }
{}

fn ends()
    ensures seen { (took 1 (record { given = 7 ∷ []; left = []; ended = false; readings = [] })).ended ≡ true }
    ensures not_seen { (took 0 (record { given = 7 ∷ []; left = []; ended = false; readings = [] })).ended ≡ false }
    ensures stays { (took 1 (record { given = 7 ∷ []; left = []; ended = true; readings = [] })).ended ≡ true }
    ensures given { (took 1 (record { given = 7 ∷ []; left = (8 ∷ []) ∷ []; ended = false; readings = [] })).given ≡ 7 ∷ 8 ∷ [] }
{}

// Readings of a clock: past the list the last one again.
fn clocks()
    ensures first { reading_at (5 ∷ 7 ∷ []) 0 ≡ 5 }
    ensures last { reading_at (5 ∷ 7 ∷ []) 1 ≡ 7 }
    ensures past { reading_at (5 ∷ 7 ∷ []) 4 ≡ 7 }
    ensures none { reading_at [] 1 ≡ 0 }
    ensures noted { noted 7 (5 ∷ []) ≡ 5 ∷ 7 ∷ [] }
{}

// What a crash leaves of a disk of five bytes after a write over two of them and one past the end, and after a cut.
#[tactic(auto, unfolding(disk_mem::specs::Crashing::with_ones))]
fn crashes()
    ensures kept { left_by 0 (after_call (Write 5 (8 ∷ 8 ∷ []) true) (after_call (Write 1 (9 ∷ 9 ∷ []) true) (start (1 ∷ 2 ∷ 3 ∷ 4 ∷ 5 ∷ [])))) ≡ 1 ∷ 2 ∷ 3 ∷ 4 ∷ 5 ∷ [] }
    ensures read { left_by 1 (after_call (Write 5 (8 ∷ 8 ∷ []) true) (after_call (Write 1 (9 ∷ 9 ∷ []) true) (start (1 ∷ 2 ∷ 3 ∷ 4 ∷ 5 ∷ [])))) ≡ 1 ∷ 9 ∷ 9 ∷ 4 ∷ 5 ∷ 8 ∷ 8 ∷ [] }
    ensures marked { left_by 2 (after_call (Write 5 (8 ∷ 8 ∷ []) true) (after_call (Write 1 (9 ∷ 9 ∷ []) true) (start (1 ∷ 2 ∷ 3 ∷ 4 ∷ 5 ∷ [])))) ≡ 1 ∷ 1 ∷ 1 ∷ 4 ∷ 5 ∷ 1 ∷ 1 ∷ [] }
    ensures cut_kept { left_by 0 (after_call (Cut 1 false) (start (1 ∷ 2 ∷ 3 ∷ []))) ≡ 1 ∷ [] }
    ensures cut_marked { left_by 3 (after_call (Cut 1 true) (start (4 ∷ 2 ∷ 3 ∷ []))) ≡ 4 ∷ 1 ∷ 1 ∷ [] }
{}
