//! Laws of one end's items.

ghost use Rattle.std.specs.Prelude.{◌≡◌, ◌<◌, ◌≤◌, ◌++◌, ◌∷◌, length, List, Bool, ℕ, true, false, Some};
ghost use Rattle.wire_base.specs.declared.frame.Version.{Version};
ghost use Rattle.mux_items.specs.declared.channel.ChannelKey.{ChannelKey};
ghost use Rattle.message_body.specs.AsRead.{AreMessages};
ghost use Rattle.message_body.specs.Written.{encoder};
ghost use Rattle.rpc_items.specs.Answered.{AnswersOnce};
ghost use Rattle.rpc_items.specs.Fitting.{AreWritable};
ghost use Rattle.rpc_items.specs.Stable.{IsStable, IsReal};
ghost use Rattle.rpc_items.specs.declared.messages.Message.{Message};
ghost use Rattle.rpc_end.specs.Arrivals.{Applies};
ghost use Rattle.rpc_end.specs.Texts.{message_texts};
ghost use Rattle.endpoint_items.specs.Items.{EndItem, terms_of};
ghost use Rattle.endpoint_items.specs.Connections.{is_attached, was_attached, items_of};
ghost use Rattle.endpoint_items.specs.Layers.{mux_of, rpc_of};
ghost use Rattle.endpoint_items.specs.Bytes.{joined, consumed, rest_of};
ghost use Rattle.endpoint_items.specs.Calls.{EndCall, called};
ghost use Rattle.endpoint_items.specs.Arriving.{next_message};
ghost use Rattle.endpoint_items.specs.Allowed.{Arrives, AreAllowed};
ghost use Rattle.endpoint_items.specs.Exchange.{said_on, TakesFirst};
ghost use Rattle.endpoint_items.specs.Joined.{Reads};
ghost use Rattle.endpoint_items.specs.Open.{IsOpen};
ghost use Rattle.endpoint_items.specs.Outcomes.{HasGrown, outcome_on};
ghost use Rattle.endpoint_items.specs.Rows.{Follows};
ghost use Rattle.endpoint_items.specs.Spoken.{Speaks};

/// A connection that was attached stays, and its items only grow.
pub fn connections_grow()
    ensures { (v : Version) (c : ChannelKey) (newer items : List EndItem) → HasGrown (rpc_of v c items) (rpc_of v c (newer ++ items)) }
{}

/// An outcome that is known stays until the request is forgotten. It is the content of the first response, or the end
/// or the stop with no response before it.
pub fn outcomes_are_kept()
    ensures stays { (v : Version) (c : ChannelKey) (n : ℕ) (newer items : List EndItem) → IsStable n (items_of (rpc_of v c (newer ++ items))) (outcome_on false v c n items) }
    ensures real { (stopped : Bool) (v : Version) (c : ChannelKey) (n : ℕ) (items : List EndItem) → IsReal stopped n (items_of (rpc_of v c items)) (outcome_on stopped v c n items) }
{}

/// The channel of a connection that hasn't ended is open.
pub fn attached_channels_are_open()
    ensures { (v : Version) (c : ChannelKey) (items : List EndItem) → AreAllowed v items → is_attached (rpc_of v c items) ≡ true → IsOpen v c (mux_of v items) }
{}

/// Each request that came on a connection is answered once at most.
pub fn requests_are_answered_once()
    ensures { (v : Version) (c : ChannelKey) (items : List EndItem) → AreAllowed v items → AnswersOnce (items_of (rpc_of v c items)) }
{}

/// Nothing that an item makes the multiplexing end do is refused.
pub fn nothing_that_follows_is_refused()
    ensures { (v : Version) (item : EndItem) (items : List EndItem) → AreAllowed v (item ∷ items) → Follows v item items }
{}

/// A call keeps the rules, and so does the next message.
pub fn calls_and_messages_keep_the_rules()
    ensures call { (v : Version) (c : EndCall) (items : List EndItem) → AreAllowed v items → AreAllowed v (called v c items) }
    ensures message { (v : Version) (item : EndItem) (items : List EndItem) → AreAllowed v items → next_message v items ≡ Some item → AreAllowed v (item ∷ items) }
{}

/// What was written on a channel since a connection was attached is a front of what the connection said, all of it while
/// writing wasn't completed.
pub fn what_is_said_is_written()
    ensures { (v : Version) (c : ChannelKey) (items : List EndItem) → AreAllowed v items → was_attached (rpc_of v c items) ≡ true → Speaks v c items }
{}

/// What a connection read is what the reads of its channel answered since it was attached: nobody else read there.
pub fn what_is_read_is_joined()
    ensures { (v : Version) (c : ChannelKey) (items : List EndItem) → AreAllowed v items → was_attached (rpc_of v c items) ≡ true → Reads v c items }
{}

/// A message that is applied has a byte and lies in the bytes that weren't applied, so that all of them lie in those
/// that were read.
pub fn messages_lie_in_what_was_read()
    ensures one { (v : Version) (c : ChannelKey) (place size : ℕ) (message : Message) (items : List EndItem) → Arrives v c (Applies place message size) items → (0 < size) × (size ≤ length (rest_of v c items)) }
    ensures all { (v : Version) (c : ChannelKey) (items : List EndItem) → AreAllowed v items → consumed c items ≤ length (joined v c items) }
{}

/// No rule refuses the body of a message that a connection said.
pub fn what_is_said_can_be_written()
    ensures { (v : Version) (c : ChannelKey) (items : List EndItem) → AreAllowed v items → AreWritable (encoder (terms_of c items).encoding) (said_on v c items) }
{}

/// Where the bytes that a connection read begin the text of some messages, the messages that it took are the first of
/// these, each as it is read.
pub fn messages_are_taken_in_order()
    ensures { (v : Version) (c : ChannelKey) (items : List EndItem) (messages : List Message) (more : List ℕ) →
        AreAllowed v items → was_attached (rpc_of v c items) ≡ true →
        AreMessages messages → AreWritable (encoder (terms_of c items).encoding) messages →
        joined v c items ++ more ≡ message_texts (terms_of c items) messages → TakesFirst v c messages items }
{}
