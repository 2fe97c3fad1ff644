//! The laws of a channel's states.

ghost use Rattle.std.specs.Prelude.{◌≡◌, ◌≢◌, ◌≤◌, ◌<◌, ◌*◌, [], ◌∷◌, ◌++◌, ℕ, List, Some, not, true, false};
ghost use Rattle.wire_base.specs.declared.frame.Version.{Version};
ghost use Rattle.mux_items.specs.declared.channel.ChannelKey.{ChannelKey};
ghost use Rattle.mux_items.specs.Bodies.{FrameBody};
ghost use Rattle.mux_items.specs.Items.{Item, Got, names, ended, is_running};
ghost use Rattle.mux_items.specs.Lists.{is_offered, is_rejected};
ghost use Rattle.mux_items.specs.Kept.{is_known, is_kept, next_key, own_windows};
ghost use Rattle.mux_items.specs.Due.{due};
ghost use Rattle.mux_items.specs.Limits.{most_offers};
ghost use Rattle.mux_items.specs.Refusals.{is_ready, unless_ended, accept_refusal, write_refusal, read_refusal, complete_refusal, terminate_refusal, later_refusal, offer_refusal, frame_refusal};
ghost use Rattle.mux_items.specs.Applying.{Allowed, lacks_room, frame_event};
ghost use Rattle.mux_items.specs.Views.{view_of, tally_of, known_keys};
ghost use Rattle.mux_state.specs.State.{ChannelState, blank, channel_at, state_of, kept_state};
ghost use Rattle.mux_state.specs.Next.{frames_due, next_on, settled};
ghost use Rattle.mux_state.specs.Emitting.{due_of, left_to_send, sent_frames, sent_state};
ghost use Rattle.mux_state.specs.Book.{AreApart, Kept, book_of, due_of_book, drawn_key, empty_book, event_in, found, frame_in, has_offer, has_room, is_ready_book, kept_in, known_in, own_count, next_book, offer_test, tally_found, windows_in};
ghost use Rattle.mux_state.specs.Tests.{accept_test, due_in, event_on, frame_test, on_kept, open_test, read_test, stays_kept, tally_on, view_on, write_test, writing_test};

use crate::due::Due;

/// One more item makes of a channel what it makes of its state before it.
pub fn a_channel_steps()
    ensures next { (v : Version) (c : ChannelKey) (item : Item) (items : List Item) → Allowed v (item ∷ items) → is_rejected c (item ∷ items) ≡ false → channel_at v c (item ∷ items) ≡ next_on c item (channel_at v c items) }
    ensures known { (v : Version) (c : ChannelKey) (item : Item) (items : List Item) → Allowed v (item ∷ items) → is_known c items ≡ true → state_of v c (item ∷ items) ≡ Some (next_on c item (channel_at v c items)) }
    ensures blank { (v : Version) (c : ChannelKey) (items : List Item) → Allowed v items → is_offered c items ≡ false → channel_at v c items ≡ blank v c.own }
{}

/// The frames that an item makes are those that its channel's state makes due.
pub fn a_channel_sends()
    ensures { (v : Version) (c : ChannelKey) (item : Item) (items : List Item) → names c item ≡ true → Allowed v (item ∷ items) → is_rejected c items ≡ false → due v item items ≡ due_in c (is_running items) item (channel_at v c items) }
{}

/// One frame after the other sends what is due, until nothing is.
pub fn frames_go_one_by_one()
    ensures settles { (s : ChannelState) → settled (sent_state (due_of s) s) ≡ settled s }
    ensures frames { (c : ChannelKey) (s : ChannelState) → frames_due c s ≡ sent_frames c (due_of s) s ++ frames_due c (sent_state (due_of s) s) }
    ensures rests { (s : ChannelState) → due_of s ≡ Due.Nothing → settled s ≡ s }
    ensures silent { (c : ChannelKey) (s : ChannelState) → due_of s ≡ Due.Nothing → frames_due c s ≡ [] }
    ensures falls { (s : ChannelState) → due_of s ≢ Due.Nothing → left_to_send (sent_state (due_of s) s) < left_to_send s }
{}

/// What the rules say of a channel they say of its state.
pub fn a_state_tells()
    ensures accept { (v : Version) (c : ChannelKey) (size : ℕ) (items : List Item) → accept_refusal v c size items ≡ unless_ended (ended items) (on_kept (kept_state v c items) (accept_test (own_windows v items) size)) }
    ensures write { (v : Version) (c : ChannelKey) (bytes : List ℕ) (items : List Item) → write_refusal v c bytes items ≡ unless_ended (ended items) (on_kept (kept_state v c items) (write_test bytes)) }
    ensures read { (v : Version) (c : ChannelKey) (items : List Item) → read_refusal v c items ≡ on_kept (kept_state v c items) read_test }
    ensures complete { (v : Version) (c : ChannelKey) (items : List Item) → complete_refusal v c items ≡ unless_ended (ended items) (on_kept (kept_state v c items) writing_test) }
    ensures terminate { (v : Version) (c : ChannelKey) (items : List Item) → terminate_refusal v c items ≡ unless_ended (ended items) (on_kept (kept_state v c items) open_test) }
    ensures frame { (v : Version) (c : ChannelKey) (body : FrameBody) (items : List Item) → is_offered c items ≡ true → later_refusal v c body items ≡ frame_test body (channel_at v c items) }
    ensures event { (v : Version) (c : ChannelKey) (body : FrameBody) (items : List Item) → is_rejected c items ≡ false → frame_event v c body items ≡ event_on c body (channel_at v c items) }
    ensures kept { (v : Version) (c : ChannelKey) (items : List Item) → is_known c items ≡ true → is_kept v c items ≡ stays_kept (channel_at v c items) }
    ensures view { (v : Version) (c : ChannelKey) (items : List Item) → view_of v c items ≡ view_on (kept_state v c items) }
    ensures tally { (v : Version) (c : ChannelKey) (items : List Item) → tally_of v c items ≡ tally_on (state_of v c items) }
{}

/// What an end keeps of its channels says all that its items say.
pub fn an_end_is_its_book()
    ensures next { (v : Version) (item : Item) (items : List Item) → Allowed v (item ∷ items) → book_of v (item ∷ items) ≡ next_book item (book_of v items) }
    ensures due { (v : Version) (item : Item) (items : List Item) → Allowed v (item ∷ items) → due v item items ≡ due_of_book item (book_of v items) }
    ensures event { (v : Version) (place : ℕ) (c : ChannelKey) (body : FrameBody) (items : List Item) → Allowed v (Got place c body ∷ items) → frame_event v c body items ≡ event_in c body (book_of v items) }
    ensures offer { (v : Version) (name : List ℕ) (size : ℕ) (items : List Item) → Allowed v items → offer_refusal v name size items ≡ offer_test name size (book_of v items) }
    ensures drawn { (v : Version) (items : List Item) → Allowed v items → next_key items ≡ drawn_key (book_of v items) }
    ensures accept { (v : Version) (c : ChannelKey) (size : ℕ) (items : List Item) → accept_refusal v c size items ≡ unless_ended (ended items) (on_kept (kept_in (found c (book_of v items))) (accept_test (windows_in (book_of v items)) size)) }
    ensures write { (v : Version) (c : ChannelKey) (bytes : List ℕ) (items : List Item) → write_refusal v c bytes items ≡ unless_ended (ended items) (on_kept (kept_in (found c (book_of v items))) (write_test bytes)) }
    ensures read { (v : Version) (c : ChannelKey) (items : List Item) → read_refusal v c items ≡ on_kept (kept_in (found c (book_of v items))) read_test }
    ensures complete { (v : Version) (c : ChannelKey) (items : List Item) → complete_refusal v c items ≡ unless_ended (ended items) (on_kept (kept_in (found c (book_of v items))) writing_test) }
    ensures terminate { (v : Version) (c : ChannelKey) (items : List Item) → terminate_refusal v c items ≡ unless_ended (ended items) (on_kept (kept_in (found c (book_of v items))) open_test) }
    ensures frame { (v : Version) (c : ChannelKey) (body : FrameBody) (items : List Item) → frame_refusal v c body items ≡ frame_in c body (book_of v items) }
    ensures room { (v : Version) (body : FrameBody) (items : List Item) → not (lacks_room v body items) ≡ has_room body (book_of v items) }
    ensures view { (v : Version) (c : ChannelKey) (items : List Item) → view_of v c items ≡ view_on (kept_in (found c (book_of v items))) }
    ensures tally { (v : Version) (c : ChannelKey) (items : List Item) → tally_of v c items ≡ tally_found (found c (book_of v items)) }
    ensures known { (v : Version) (items : List Item) → known_keys items ≡ known_in (book_of v items) }
    ensures ready { (v : Version) (items : List Item) → is_ready v items ≡ is_ready_book (book_of v items) }
    ensures start { (v : Version) → book_of v [] ≡ empty_book v }
{}

/// The channels of a book are apart, its kept ones stay kept, and its own offers and their ids are within their limits.
pub fn a_book_is_sound()
    ensures apart { (v : Version) (items : List Item) → Allowed v items → AreApart (known_in (book_of v items)) }
    ensures kept { (v : Version) (c : ChannelKey) (now : ChannelState) (items : List Item) → found c (book_of v items) ≡ Some (Kept now) → stays_kept now ≡ true }
    ensures offers { (v : Version) (items : List Item) → Allowed v items → own_count (book_of v items) ≤ most_offers }
    ensures ids { (v : Version) (c : ChannelKey) (items : List Item) → Allowed v items → c.own ≡ true → has_offer c (book_of v items) ≡ true → c.id ≤ 2 * most_offers }
{}
