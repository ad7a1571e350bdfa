ghost use Rattle.std.specs.Prelude.{◌≡◌, ◌<◌, ◌++◌, ◌∷◌, [], ℕ, List, Some, None, length, slice_index_or, slice_set, nat_eq, if◌then◌else◌};
ghost use Rattle.std.specs.Cmp.Lexicographic.{pointwise};
ghost use Rattle.evidence_types.specs.Evidence.{Evidence};
ghost use Rattle.evidence_store.specs.Kept.{value_at, Grows};
ghost use Rattle.rising_list.specs.Rising.{find, inserted, removed, RisesFrom};
ghost use Rattle.place_mail.specs.declared.request.Request.{Request};
ghost use Rattle.place_mail.specs.Mail.{waiting_at, posted, taken};
ghost use Rattle.avm_code.specs.declared.instr.BlockName.{BlockName};
ghost use Rattle.avm_code.specs.declared.program.Block.{Block};
ghost use Rattle.avm_code.specs.Order.{IsInOrder, IsAt};
ghost use Rattle.branch_join.specs.Blocks.{is_same};
ghost use Rattle.machine_world.specs.Seen.{request_value, requests_on, IsPlace, requests_at, reply_to, ListsBelow, RepliesBelow, IsBlock, of_block};

/// What the mail holds, on values, after each of its changes, at every place and under every name;
/// values that are added later change none of it.
pub fn mail_on_values()
    ensures posted { (values : List Evidence) (names : List (List ℕ)) (lists : List (List Request)) (place : List ℕ) (index : ℕ) (request : Request) (other : List ℕ) →
        IsPlace names place index → index < length lists →
        requests_at values names (posted index request lists) other
        ≡ (if pointwise nat_eq place other then requests_at values names lists place ++ request_value values request ∷ [] else requests_at values names lists other) }
    ensures taken { (values : List Evidence) (names : List (List ℕ)) (lists : List (List Request)) (place : List ℕ) (index : ℕ) (first : Request) (rest : List Request) (other : List ℕ) →
        IsPlace names place index → index < length lists → waiting_at index lists ≡ first ∷ rest →
        (requests_at values names lists place ≡ request_value values first ∷ requests_on values rest)
        × (requests_at values names (taken index lists) other ≡ (if pointwise nat_eq place other then requests_on values rest else requests_at values names lists other)) }
    ensures answered { (values : List Evidence) (answers : List (ℕ × ℕ)) (number id other : ℕ) → find number answers ≡ None →
        reply_to values (inserted number id answers) other ≡ (if nat_eq number other then Some (value_at values id) else reply_to values answers other) }
    ensures replied { (values : List Evidence) (answers : List (ℕ × ℕ)) (number other : ℕ) → RisesFrom 0 answers →
        reply_to values (removed number answers) other ≡ (if nat_eq number other then None else reply_to values answers other) }
    ensures requests_stay { (old new : List Evidence) (names : List (List ℕ)) (lists : List (List Request)) (place : List ℕ) →
        Grows old new → ListsBelow (length old) lists → requests_at new names lists place ≡ requests_at old names lists place }
    ensures replies_stay { (old new : List Evidence) (answers : List (ℕ × ℕ)) (number : ℕ) →
        Grows old new → RepliesBelow (length old) answers → reply_to new answers number ≡ reply_to old answers number }
{}

/// The index at which a program has a block is the first of its name.
pub fn a_block_has_one_index()
    ensures { (blocks : List Block) (name : BlockName) (index : ℕ) → IsInOrder blocks → IsAt blocks name index → IsBlock blocks name index }
{}

/// What belongs to a block is at the block's index, and what is put there belongs to that block alone.
pub fn one_block_changes<T>()
    ensures read { (nothing : T) (blocks : List Block) (items : List T) (name : BlockName) (index : ℕ) →
        IsBlock blocks name index → index < length items → of_block nothing blocks items name ≡ slice_index_or items index nothing }
    ensures put { (nothing : T) (blocks : List Block) (items : List T) (name : BlockName) (index : ℕ) (now : T) (other : BlockName) →
        IsBlock blocks name index → index < length items →
        of_block nothing blocks (slice_set items index now) other ≡ (if is_same name other then now else of_block nothing blocks items other) }
{}
