//! Laws of logs and their parts, over every version and from any world. No call is needed to use them.
ghost use Rattle.std.specs.Prelude.{◌≡◌, ◌⊎◌, ℕ, ◌+◌, ◌-◌, ◌<◌, ◌≤◌, List, [], ◌∷◌, ◌++◌, Some, None, false, true, length, slice_get};
ghost use Rattle.mv_calls.specs.declared.calls.Call.{Call as call};
ghost use Rattle.mv_calls.specs.declared.calls.Reply.{Reply as reply};
ghost use Rattle.mv_orders.specs.declared.reply.OrderReply.{OrderReply as answer};
ghost use Rattle.mv_orders.specs.declared.reply.OrderReply.TheVariants as answers;
ghost use Rattle.mv_orders.specs.declared.stage.Word.TheVariants as word;
ghost use Rattle.mv_history.specs.declared.log.Entry.{Entry as entry};
ghost use Rattle.mv_history.specs.declared.log.Entry.TheVariants as entries;
ghost use Rattle.mv_history.specs.declared.log.How.{How as how};
ghost use Rattle.mv_history.specs.declared.log.Mark.TheVariants as marks;
ghost use Rattle.mv_history.specs.declared.status.Status.{Status as status};
ghost use Rattle.mv_history.specs.declared.updates.Update.{Update as update};
ghost use Rattle.mv_history.specs.Answers.{Answers};
ghost use Rattle.mv_history.specs.Ends.{EndsBy};
ghost use Rattle.mv_history.specs.Files.{HasFiles};
ghost use Rattle.mv_history.specs.Followers.{Following};
ghost use Rattle.mv_history.specs.Leads.{Chosen, lead_entry, needs_room};
ghost use Rattle.mv_history.specs.Statuses.{answered, first_status, is_alone, update_limit};
ghost use Rattle.mv_history.specs.Stretches.{KeepsLeader, MarksAre, heard_since};
ghost use Rattle.mv_history.specs.Ties.{update_wanted};
ghost use Rattle.mv_history.specs.World.{AreLegal, MayEnter, World, after_entries, files_of, outside, said, sends, sent, texts};

use mv_version::Version;

/// Entries behind others: they are legal where both are, each from where it begins, and they lead, send, call, say and take
/// what both do, one behind the other.
pub fn logs_join<V: Version>()
    ensures legal { (updates : List update) (w : World V) (es fs : List entry) → AreLegal V.behaviour updates w es → AreLegal V.behaviour updates (after_entries V.behaviour updates w es) fs → AreLegal V.behaviour updates w (es ++ fs) }
    ensures front { (updates : List update) (w : World V) (es fs : List entry) → AreLegal V.behaviour updates w (es ++ fs) → AreLegal V.behaviour updates w es }
    ensures back { (updates : List update) (w : World V) (es fs : List entry) → AreLegal V.behaviour updates w (es ++ fs) → AreLegal V.behaviour updates (after_entries V.behaviour updates w es) fs }
    ensures world { (updates : List update) (w : World V) (es fs : List entry) → after_entries V.behaviour updates w (es ++ fs) ≡ after_entries V.behaviour updates (after_entries V.behaviour updates w es) fs }
    ensures messages { (updates : List update) (w : World V) (es fs : List entry) → sent V.behaviour updates w (es ++ fs) ≡ sent V.behaviour updates w es ++ sent V.behaviour updates (after_entries V.behaviour updates w es) fs }
    ensures calls { (es fs : List entry) → outside (es ++ fs) ≡ outside es ++ outside fs }
    ensures replies { (es fs : List entry) → said (es ++ fs) ≡ said es ++ said fs }
    ensures lines { (es fs : List entry) → texts (es ++ fs) ≡ texts es ++ texts fs }
{}

/// An entry comes only while the log goes on. A legal log that has ended ends by its End, and a log that ends by an End has
/// ended so. Beside a follower the log goes on.
pub fn logs_end_once<V: Version>()
    ensures runs { (updates : List update) (w : World V) (e : entry) → MayEnter V.behaviour updates w e → w.status.ended ≡ None }
    ensures last { (updates : List update) (w : World V) (es : List entry) (h : how) → AreLegal V.behaviour updates w es → w.status.ended ≡ None → (after_entries V.behaviour updates w es).status.ended ≡ Some h → EndsBy es h }
    ensures ended { (updates : List update) (w : World V) (es : List entry) (h : how) → EndsBy es h → (after_entries V.behaviour updates w es).status.ended ≡ Some h }
    ensures beside { (updates : List update) (w : World V) (es : List entry) → AreLegal V.behaviour updates w es → (0 < w.status.follower → w.status.ended ≡ None) →
        0 < (after_entries V.behaviour updates w es).status.follower → (after_entries V.behaviour updates w es).status.ended ≡ None }
{}

/// What a follower heard are the calls since the last copy or promotion, behind those that it heard before these entries.
pub fn followers_hear<V: Version>()
    ensures heard { (updates : List update) (w : World V) (items : List (call × reply)) (es : List entry) → ((f : Following V) → w.following ≡ Some f → f.heard ≡ items) →
        (f : Following V) → (after_entries V.behaviour updates w es).following ≡ Some f → f.heard ≡ heard_since items es }
{}

/// A log that has the files of its updates keeps them, and looks at no update past the last one that it accepted: with more
/// updates it is as legal, and leads to the same world by the same messages. A copy is for the last one that it accepted.
pub fn later_updates_are_unread<V: Version>()
    ensures first { (updates : List update) → HasFiles 0 updates first_status }
    ensures kept { (past : ℕ) (updates : List update) (w : World V) (es : List entry) → AreLegal V.behaviour updates w es → HasFiles past updates w.status → HasFiles past updates (after_entries V.behaviour updates w es).status }
    ensures legal { (past : ℕ) (updates more : List update) (w : World V) (es : List entry) → AreLegal V.behaviour updates w es → HasFiles past updates w.status → AreLegal V.behaviour (updates ++ more) w es }
    ensures world { (past : ℕ) (updates more : List update) (w : World V) (es : List entry) → AreLegal V.behaviour updates w es → HasFiles past updates w.status → after_entries V.behaviour (updates ++ more) w es ≡ after_entries V.behaviour updates w es }
    ensures messages { (past : ℕ) (updates more : List update) (w : World V) (es : List entry) → AreLegal V.behaviour updates w es → HasFiles past updates w.status → sent V.behaviour (updates ++ more) w es ≡ sent V.behaviour updates w es }
    ensures fork { (past : ℕ) (updates : List update) (w : World V) (u : ℕ) → MayEnter V.behaviour updates w (entries.Mark (marks.Fork u)) → HasFiles past updates w.status →
        (u ≡ w.status.updates) × (0 < w.status.fresh) × (slice_get updates (w.status.fresh - 1) ≡ Some (files_of updates w.status u)) }
{}

/// An answered order leaves all of the status but what is wanted and the counts of updates. Where an update is wanted then, it is
/// the one that was accepted, or the one that was wanted. An update is accepted where one version is alone, no update is wanted
/// and few were accepted, under the next number, and the log has its files.
pub fn orders_keep_the_rest()
    ensures stage { (st : status) (r : answer) → (answered st r).stage ≡ st.stage }
    ensures follower { (st : status) (r : answer) → (answered st r).follower ≡ st.follower }
    ensures asked { (st : status) (r : answer) → (answered st r).asked ≡ st.asked }
    ensures last { (st : status) (r : answer) → (answered st r).last ≡ st.last }
    ensures ended { (st : status) (r : answer) → (answered st r).ended ≡ st.ended }
    ensures counts { (st : status) (r : answer) → (st.updates ≤ (answered st r).updates) × ((answered st r).updates + st.fresh ≡ st.updates + (answered st r).fresh) }
    ensures wants { (st : status) (updates : List update) (text : List ℕ) (r : answer) (u : ℕ) → Answers st updates text r → update_wanted (answered st r).wanted ≡ Some u →
        ((u ≡ st.updates + 1) × ((answered st r).updates ≡ st.updates + 1)) ⊎ ((update_wanted st.wanted ≡ Some u) × ((answered st r).updates ≡ st.updates)) }
    ensures accepts { (st : status) (updates : List update) (text : List ℕ) (n : ℕ) → Answers st updates text (answers.Accepted word.Update n) →
        (n ≡ st.updates + 1) × (is_alone st.stage ≡ true) × (update_wanted st.wanted ≡ None) × (st.fresh < update_limit) × ((files : update) × (slice_get updates st.fresh ≡ Some files)) }
{}

/// An entry sends one message at most, by the leader and the status alone. The entry of a turn changes no leader, and sends nothing
/// where it needs no message's place.
pub fn turns_send_little<V: Version>()
    ensures few { (updates : List update) (w : World V) (e : entry) → length (sends updates w e) ≤ 1 }
    ensures alike { (updates : List update) (v w : World V) (e : entry) → v.lead ≡ w.lead → v.status ≡ w.status → sends updates v e ≡ sends updates w e }
    ensures leader { (lead : V) (st : status) (chosen : Chosen) → MarksAre KeepsLeader (lead_entry V.behaviour lead st chosen ∷ []) }
    ensures silent { (updates : List update) (w : World V) (chosen : Chosen) → needs_room V.behaviour w.lead w.status chosen.line ≡ false → sends updates w (lead_entry V.behaviour w.lead w.status chosen) ≡ [] }
{}
