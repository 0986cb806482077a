//! Laws of the definitions that contracts cite: each is the contract of a function that does nothing.

ghost use Rattle.std.specs.Prelude.{◌≡◌, ℕ, ◌+◌, ◌*◌, ◌/◌, ◌%◌, ◌-◌, ◌^◌, ◌<◌, ◌≤◌, ◌≢◌, ◌⊎◌, if◌then◌else◌, List, length, sum, slice_index, Ok, Err};
ghost use Rattle.jxlm_bits.specs.Decoding.{Found};
ghost use Rattle.jxl_coding_codes.specs.IntegerConfigs.{IsConfig};
ghost use Rattle.jxl_coding_codes.specs.Spellings.{Spells};
ghost use Rattle.jxl_coding_codes.specs.declared.config.IntegerConfig.{IntegerConfig};
ghost use Rattle.jxl_coding_codes.specs.Ans.{Slot, after_slot, refilled_at};
ghost use Rattle.jxl_coding_codes.specs.Writing.{IsSlotFor, WordStands, is_large, written_state};
ghost use Rattle.jxl_coding_codes.specs.Distributions.{distribution_at};
ghost use Rattle.jxl_coding_codes.specs.PrefixCodes.{Prefix, prefix_of, prefix_at, next_symbol_at, long_code_at, code_length_code_at};
ghost use Rattle.jxl_coding_codes.specs.Refusals.{refusal_error};
ghost use Rattle.jxl_coding_codes.specs.declared.refusal.Refusal.TheVariants.{NoCodeword};
ghost use Rattle.jxl_coding_codes.specs.Alias.{buckets_of};
ghost use Rattle.jxl_coding_codes.specs.Slots.{AreSlotsOf};
ghost use Rattle.jxl_coding_codes.specs.Codewords.{HasCodeword, IsFull, LeavesNoRoom, StandsAt, codeword_of};

/// Each token from the split on, of at most 32 bits, has a spelling, a symbol and the bits after it, and one alone.
pub fn tokens_have_one_spelling()
    ensures some { (config : IntegerConfig) (token : ℕ) → IsConfig config → 2 ^ config.split_exponent ≤ token
        → token < 2 ^ 32 → (symbol : ℕ) × ((rest : ℕ) × Spells config symbol rest token) }
    ensures one { (config : IntegerConfig) (s t r q token : ℕ) → IsConfig config → Spells config s r token
        → Spells config t q token → (s ≡ t) × (r ≡ q) }
{}

/// Reading a symbol undoes writing it: from a state that was written, which is one of a stream again, its slot is found,
/// and the state before comes back with the 16 bits that were written of it.
pub fn reading_undoes_writing()
    ensures slot { (slot : Slot) (place state : ℕ) → IsSlotFor slot place state
        → written_state slot place state % 4096 ≡ place }
    ensures state { (slot : Slot) (place state : ℕ) → IsSlotFor slot place state
        → (2 ^ 16 ≤ written_state slot place state) × (written_state slot place state < 2 ^ 32) }
    ensures read { (slot : Slot) (place state : ℕ) (bytes : List ℕ) (p : ℕ) → IsSlotFor slot place state
        → WordStands slot state bytes p
        → refilled_at slot.symbol (after_slot slot (written_state slot place state)) bytes p
        ≡ Ok (record {
          symbol = slot.symbol;
          ans_state = state;
          position = if is_large slot state then p + 16 else p;
        }) }
{}

/// The counts of each distribution that is read sum up to 4096.
pub fn distributions_sum_up()
    ensures { (bytes : List ℕ) (p : ℕ) (found : Found (List ℕ)) → distribution_at bytes p ≡ Ok found
        → sum found.value ≡ 4096 }
{}

/// No codeword begins another: the first bits of a codeword that is as long or longer are another number.
pub fn no_codeword_begins_another()
    ensures { (lengths : List ℕ) (s t : ℕ) → HasCodeword lengths s → HasCodeword lengths t → s ≢ t
        → slice_index lengths s ≤ slice_index lengths t
        → codeword_of lengths t / 2 ^ (slice_index lengths t - slice_index lengths s) ≢ codeword_of lengths s }
{}

/// What is read is the symbol whose codeword is at the reader's position, and the codeword's bits are what is taken.
pub fn codewords_are_read()
    ensures { (lengths bytes : List ℕ) (symbol p : ℕ) → length lengths ≤ 2 ^ 15
        → length (prefix_of lengths).symbols ≢ 1 → HasCodeword lengths symbol → StandsAt lengths symbol bytes p
        → next_symbol_at (prefix_of lengths) bytes p
        ≡ Ok (record { value = symbol; position = p + slice_index lengths symbol }) }
{}

/// A code that leaves no room has a codeword for all bits: one stands wherever 15 bits are left.
pub fn full_codes_have_a_codeword_for_all_bits()
    ensures { (lengths bytes : List ℕ) (p : ℕ) → IsFull lengths → p + 15 ≤ 8 * length bytes
        → (symbol : ℕ) × (HasCodeword lengths symbol × StandsAt lengths symbol bytes p) }
{}

/// Each prefix code that is read has one symbol, which takes no bits, or leaves no room; one that is read by the lengths
/// of its codewords leaves none. So no bits are refused as no codeword of it.
pub fn prefix_codes_leave_no_room()
    ensures all { (alphabet : ℕ) (bytes : List ℕ) (p : ℕ) (found : Found Prefix)
        → prefix_at alphabet bytes p ≡ Ok found → LeavesNoRoom found.value }
    ensures long { (skipped alphabet : ℕ) (bytes : List ℕ) (p : ℕ) (found : Found Prefix)
        → long_code_at skipped alphabet bytes p ≡ Ok found
        → (lengths : List ℕ) × ((found.value ≡ prefix_of lengths) × IsFull lengths) }
    ensures read { (alphabet : ℕ) (bytes : List ℕ) (p : ℕ) (found : Found Prefix) → alphabet ≤ 2 ^ 15
        → prefix_at alphabet bytes p ≡ Ok found
        → (input : List ℕ) (q : ℕ) → next_symbol_at found.value input q ≢ Err (refusal_error NoCodeword) }
{}

/// So does the code of the lengths, as it is read: it leaves no room, or has one symbol, and no bits are refused as no
/// codeword of it.
pub fn code_length_codes_leave_no_room()
    ensures full { (skipped : ℕ) (bytes : List ℕ) (p : ℕ) (found : Found (List ℕ)) → skipped ≤ 3
        → code_length_code_at skipped bytes p ≡ Ok found
        → IsFull found.value ⊎ (length (prefix_of found.value).symbols ≡ 1) }
    ensures read { (skipped : ℕ) (bytes : List ℕ) (p : ℕ) (found : Found (List ℕ)) → skipped ≤ 3
        → code_length_code_at skipped bytes p ≡ Ok found
        → (input : List ℕ) (q : ℕ) → next_symbol_at (prefix_of found.value) input q ≢ Err (refusal_error NoCodeword) }
{}

/// An alias table has one slot for each symbol and number below its count, where the counts sum up to 4096.
pub fn slots_are_symbols_and_numbers()
    ensures { (counts : List ℕ) (log : ℕ) → log ≤ 8 → length counts ≤ 2 ^ log → sum counts ≡ 4096
        → AreSlotsOf counts (buckets_of counts log) (4096 / 2 ^ log) }
{}
