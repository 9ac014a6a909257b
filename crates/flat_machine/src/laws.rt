//! Laws of the machine, for every source and all answers, where the code denotes the source. Each
//! law is what its function ensures.

ghost use Rattle.std.specs.Prelude.{◌≡◌, Bool, ℕ, List, [], ◌∷◌, ◌++◌, length};
ghost use Rattle.database_protocol.specs.declared.answer.Answer.{Answer};
ghost use Rattle.database_protocol.specs.declared.operation.Op.{Op};
ghost use Rattle.bound_tree.specs.Tree.{Body, Assignment};
ghost use Rattle.block_meaning.specs.Buffers.{all_places};
ghost use Rattle.block_meaning.specs.Changes.{buffers_in};
ghost use Rattle.database_protocol.specs.declared.next_step.NextStep.{NextStep};
ghost use Rattle.block_meaning.specs.Program.{Program};
ghost use Rattle.block_meaning.specs.State.{State, Copy, Suspended};
ghost use Rattle.block_meaning.specs.Frames.{put_back};
ghost use Rattle.block_meaning.specs.Meaning.{run, finished};
ghost use Rattle.block_meaning.specs.GivesUp.{Begins, IsAsked};
ghost use Rattle.flat_machine.specs.Works.{IsRunning};
ghost use Rattle.flat_machine.specs.Written.{Encodes, NamesBelow, DenotesNext, tree_at, instr_at};
ghost use Rattle.flat_machine.specs.Config.{Execute, Assigns, AssignsEach, AfterBack, LeavesNow, Empties, ThenDo, Config, StackEntry, OnAnswer, Await};
ghost use Rattle.flat_machine.specs.Code.{Instr, DenotesAt, Code, IsCodeOf};
ghost use Rattle.flat_machine.specs.Steps.{config};
ghost use Rattle.flat_machine.specs.Means.{means};
ghost use Rattle.flat_machine.specs.Machine.{step, answered, first_config};

/// A step keeps the rest of the run.
pub fn steps_keep_the_run()
    ensures { (code : Code) (tree : ℕ → Body) (p : Program) → IsCodeOf code p tree → (c : Config) (ans : List Answer) → means tree p c ans ≡ means tree p (step code p c) ans }
{}

/// An answer to the operation that is asked keeps the rest of the run.
pub fn answers_keep_the_run()
    ensures { (tree : ℕ → Body) (p : Program) (a : Answer) (op : Op) (k : OnAnswer) (ks : List StackEntry) (s : State) (ans : List Answer) → means tree p (config (Await op k) ks s) (a ∷ ans) ≡ means tree p (answered p a op k ks s) ans }
{}

/// Without an answer the run is suspended at the operation that the machine asks.
pub fn the_run_asks_what_the_machine_asks()
    ensures { (tree : ℕ → Body) (p : Program) (op : Op) (k : OnAnswer) (ks : List StackEntry) (s : State) → means tree p (config (Await op k) ks s) [] ≡ Suspended (record { written = s.written; wants = NextStep.Ask op }) }
{}

/// The first configuration has the whole run.
pub fn the_machine_begins_at_the_run()
    ensures { (code : Code) (tree : ℕ → Body) (p : Program) → IsCodeOf code p tree → (units : ℕ) (ans : List Answer) → run p units ans ≡ finished (means tree p (first_config code p units) ans) }
{}

/// Code grows by one instruction, which names places that are already written.
pub fn one_more_instruction()
    ensures { (is : List Instr) (ts : List Body) (i : Instr) (t : Body) → Encodes is ts → NamesBelow (length is) i → DenotesNext ts t i → Encodes (is ++ i ∷ []) (ts ++ t ∷ []) }
{}

/// Code that is written so denotes its bodies, at each place.
pub fn written_code_denotes_its_bodies()
    ensures { (is : List Instr) (ts : List Body) → Encodes is ts → (k : ℕ) → DenotesAt (tree_at ts) k (instr_at is k) }
{}

/// What a running machine has written is a prefix of what its run has written when it asks next, and
/// it does ask.
pub fn what_was_written_stays()
    ensures written { (tree : ℕ → Body) (p : Program) (c : Config) → IsRunning c.mode → (ans : List Answer) → Begins c.state.written (finished (means tree p c ans)).written }
    ensures asks { (tree : ℕ → Body) (p : Program) (c : Config) → IsRunning c.mode → IsAsked (finished (means tree p c [])).wants }
{}

/// An assignment to variables alone needs no stack.
pub fn variables_are_assigned_at_once()
    ensures { (tree : ℕ → Body) (p : Program) (xs : List Assignment) (retry : Bool) (ks : List StackEntry) (s : State) (ans : List Answer) → buffers_in xs ≡ [] → means tree p (config (Execute (Assigns xs retry)) ks s) ans ≡ means tree p (config (Execute (AssignsEach xs retry)) ks s) ans }
{}

/// An UNDO without buffers leaves its level at once.
pub fn levels_are_undone_at_once()
    ensures { (tree : ℕ → Body) (p : Program) (copy : Copy) (but : List ℕ) (ks : List StackEntry) (s : State) (ans : List Answer) → all_places (put_back copy s) ≡ [] → means tree p (config (Execute (AfterBack copy but)) ks s) ans ≡ means tree p (config (Execute (LeavesNow but)) (ThenDo (Empties but) ∷ ks) (put_back copy s)) ans }
{}
