//! Laws of one connection's items.

ghost use Rattle.std.specs.Prelude.{◌≡◌, ◌≢◌, ◌++◌, ◌∷◌, ◌<◌, ◌≤◌, ◌&&◌, ℕ, Bool, List, Some, Ok, [], codes, drop, true, false};
ghost use Rattle.wire_base.specs.Tree.{Tree, flag};
ghost use Rattle.wire_base.specs.declared.text.Id.{Id};
ghost use Rattle.rpc_items.specs.declared.messages.Params.{Params};
ghost use Rattle.rpc_items.specs.declared.messages.Params.TheVariants.{Named};
ghost use Rattle.rpc_items.specs.Ids.{numbered_id, id_in, id_value, count_value, whole_bound};
ghost use Rattle.rpc_items.specs.Writing.{message_value};
ghost use Rattle.rpc_items.specs.Reading.{message_in};
ghost use Rattle.rpc_items.specs.Keys.{other_side};
ghost use Rattle.rpc_items.specs.Methods.{cancel_request, progress, next_page, abort_pages, release_object, proxy_method};
ghost use Rattle.rpc_items.specs.declared.methods.Meaning.{Meaning};
ghost use Rattle.rpc_items.specs.declared.methods.Meaning.TheVariants.{Cancels, Reports, Turns, Aborts, Releases, Calls};
ghost use Rattle.rpc_items.specs.Meanings.{meaning};
ghost use Rattle.rpc_items.specs.Items.{Did, Got, RpcCall, RpcItem, TakeReport};
ghost use Rattle.rpc_items.specs.Produced.{produced_at};
ghost use Rattle.rpc_items.specs.Outcomes.{is_unanswered, outcome};
ghost use Rattle.rpc_items.specs.Reports.{has_progress, report_in, reports};
ghost use Rattle.rpc_items.specs.Producing.{answered_values, page_count, is_producing};
ghost use Rattle.rpc_items.specs.Automatic.{automatic};
ghost use Rattle.rpc_items.specs.Events.{event_of};
ghost use Rattle.rpc_items.specs.Bodies.{Encoder};
ghost use Rattle.rpc_items.specs.Allowed.{AreAllowed};
ghost use Rattle.rpc_items.specs.Stable.{IsStable, IsReal, starved, Settles};
ghost use Rattle.rpc_items.specs.Answered.{AnswersOnce, IsDrawnOnce, SaysOne};
ghost use Rattle.rpc_items.specs.Resting.{RestsAfterEnd, releases_of};
ghost use Rattle.rpc_items.specs.Fitting.{IsFrontOf, Fits, page_to_come, IsFair, IsNamed, AreWritable};
ghost use Rattle.rpc_items.specs.Told.{CanBeTold};
ghost use Rattle.rpc_items.specs.declared.calls.HandleKey.{HandleKey};
ghost use Rattle.rpc_items.specs.declared.messages.Message.{Message};

/// An outcome that is known stays until the request is forgotten. A connection that stops changes only what wasn't
/// known yet.
pub fn outcomes_are_stable()
    ensures stays { (n : ℕ) (newer items : List RpcItem) → IsStable n (newer ++ items) (outcome false n items) }
    ensures stopped { (n : ℕ) (items : List RpcItem) → outcome true n items ≡ starved (outcome false n items) }
{}

/// An outcome is the content of the first response, or the end or the stop with no response before it.
pub fn outcomes_are_real()
    ensures { (stopped : Bool) (n : ℕ) (items : List RpcItem) → IsReal stopped n items (outcome stopped n items) }
{}

/// A handle is released at most once here, and once it has ended neither released nor called.
pub fn handles_rest_after_their_end()
    ensures rests { (k : Encoder) (key : HandleKey) (items : List RpcItem) → AreAllowed k items → RestsAfterEnd key items }
    ensures once { (k : Encoder) (key : HandleKey) (items : List RpcItem) → AreAllowed k items → releases_of key items ≤ 1 }
{}

/// Each request that came is answered once at most.
pub fn requests_are_answered_once()
    ensures { (k : Encoder) (items : List RpcItem) → AreAllowed k items → AnswersOnce items }
{}

/// A report is kept behind the earlier ones while its request is unanswered and asked for progress, and else not at all.
/// One that is taken is the oldest of its request, and those of other requests stay.
pub fn reports_come_in_order()
    ensures kept { (n place : ℕ) (message : Message) (value : Tree) (items : List RpcItem) → is_unanswered n items ≡ true → has_progress n items ≡ true → report_in n message ≡ value ∷ [] →
        reports n (Got place message ∷ items) ≡ reports n items ++ value ∷ [] }
    ensures unkept { (n place : ℕ) (message : Message) (items : List RpcItem) → (is_unanswered n items && has_progress n items) ≡ false → reports n (Got place message ∷ items) ≡ reports n items }
    ensures taken { (n : ℕ) (items : List RpcItem) → reports n (Did (TakeReport n) ∷ items) ≡ drop 1 (reports n items) }
    ensures others { (n m : ℕ) (items : List RpcItem) → m ≢ n → reports m (Did (TakeReport n) ∷ items) ≡ reports m items }
{}

/// What was answered for a sequence so far is a front of its values.
pub fn pages_are_a_front()
    ensures { (token : ℕ) (items : List RpcItem) → IsFrontOf (answered_values token items) (produced_at token items) }
{}

/// A number is drawn by one request, and not said before.
pub fn numbers_are_drawn_once()
    ensures { (n : ℕ) (items : List RpcItem) → IsDrawnOnce n items }
{}

/// An accepted call that says something says one message, and the others say none.
pub fn calls_say_one_message()
    ensures { (k : Encoder) (call : RpcCall) (items : List RpcItem) → SaysOne k call items }
{}

/// A page that a request can ask for is free of bytes where JSON is written, and neither too deep nor too long for a
/// response: the answer that the connection gives by itself is never refused.
pub fn pages_fit_in_responses()
    ensures { (k : Encoder) (token : ℕ) (items : List RpcItem) → AreAllowed k items → is_producing token items ≡ true → Fits k (page_to_come (produced_at token items) (page_count token items)) }
{}

/// A first response answers its own request and no other; what is no first response answers none.
pub fn messages_settle_one_request()
    ensures { (place : ℕ) (message : Message) (items : List RpcItem) → Settles place message items (event_of message items) }
{}

/// What a call of one end says with a method of the extensions is read by the other end as what the call meant.
pub fn methods_are_understood()
    ensures cancels { (n : ℕ) → n < whole_bound → meaning cancel_request (Named ((codes "id", count_value n) ∷ [])) ≡ Cancels (numbered_id n) }
    ensures reports { (token : Id) (value : Tree) → id_in (id_value token) ≡ Some token → meaning progress (Named ((codes "token", id_value token) ∷ (codes "value", value) ∷ [])) ≡ Reports token value }
    ensures turns { (token : Id) → id_in (id_value token) ≡ Some token → meaning next_page (Named ((codes "token", id_value token) ∷ [])) ≡ Turns token }
    ensures aborts { (token : Id) → id_in (id_value token) ≡ Some token → meaning abort_pages (Named ((codes "token", id_value token) ∷ [])) ≡ Aborts token }
    ensures releases { (key : HandleKey) → key.number < whole_bound → meaning release_object (Named ((codes "handle", count_value key.number) ∷ (codes "ownedBySender", flag key.own) ∷ [])) ≡ Releases (other_side key) }
    ensures calls { (handle : ℕ) (method : List ℕ) (params : Params) → handle < whole_bound → meaning (proxy_method handle method) params ≡ Calls handle method }
{}

/// A message that is written as a value is read as that message.
pub fn messages_are_read_again()
    ensures { (m : Message) → CanBeTold m → message_in (message_value m) ≡ Ok m }
{}

/// The answers that the connection gives by itself can be written, where the encoding adds no more than there is room
/// for.
pub fn automatic_answers_are_written()
    ensures { (k : Encoder) (id : Id) (m : Meaning) (items : List RpcItem) → IsFair k → AreAllowed k items → IsNamed id → AreWritable k (automatic id m items) }
{}
