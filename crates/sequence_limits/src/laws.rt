//! What holds of the limits of sequences.

ghost use Rattle.enumerables.specs.Producer.{all_ended, given_up, page_in, turned, with_sequence};
ghost use Rattle.enumerables.specs.declared.sequence.Sequence.{Sequence};
ghost use Rattle.rpc_items.specs.Bodies.{Encoder, body_refusal, sequence_refusal};
ghost use Rattle.rpc_items.specs.Fitting.{Fits};
ghost use Rattle.rpc_items.specs.Pages.{page_values};
ghost use Rattle.rpc_items.specs.Saying.{result_of_sequence};
ghost use Rattle.rpc_items.specs.Writing.{message_value};
ghost use Rattle.rpc_items.specs.declared.messages.Message.TheVariants.{Result};
ghost use Rattle.sequence_limits.specs.Fitting.{PagesFit};
ghost use Rattle.sequence_limits.specs.Limits.{pages_refusal, values_refusal};
ghost use Rattle.std.specs.Prelude.{◌≡◌, ◌==◌, List, None, Some, drop, false, length, ℕ};
ghost use Rattle.wire_base.specs.Options.{or_else};
ghost use Rattle.wire_base.specs.Tree.{Tree};
ghost use Rattle.wire_base.specs.declared.text.Id.{Id};

/// An answer that is a sequence is refused for its values first, then for its response, then for its later pages.
pub fn sequences_are_refused_in_order()
    ensures { (k : Encoder) (id : Id) (values : List Tree) (page first token : ℕ) → (page == 0) ≡ false →
        sequence_refusal k (message_value (Result id (result_of_sequence values first token))) values (page_values (length values) page (drop first values)) ≡
        or_else (values_refusal k values) (or_else (body_refusal k (message_value (Result id (result_of_sequence values first token)))) (pages_refusal k (page_values (length values) page (drop first values)))) }
{}

/// Each page of a sequence that was tested can be written, whatever is asked for first.
pub fn tested_pages_fit()
    ensures kept { (k : Encoder) (values : List Tree) (page first : ℕ) (sequences : List Sequence) → (page == 0) ≡ false → values_refusal k values ≡ None → pages_refusal k (page_values (length values) page (drop first values)) ≡ None →
        PagesFit k sequences → PagesFit k (with_sequence values page first sequences) }
    ensures turned { (k : Encoder) (token : Id) (sequences : List Sequence) → PagesFit k sequences → PagesFit k (turned token sequences) }
    ensures given_up { (k : Encoder) (token : Id) (sequences : List Sequence) → PagesFit k sequences → PagesFit k (given_up token sequences) }
    ensures ended { (k : Encoder) (sequences : List Sequence) → PagesFit k sequences → PagesFit k (all_ended sequences) }
    ensures page { (k : Encoder) (token : Id) (page : Tree) (sequences : List Sequence) → PagesFit k sequences → page_in token sequences ≡ Some page → Fits k page }
{}
