//! What holds of all runs, each as the contract of a function that does nothing.
ghost use Rattle.hc_model.specs.Histories.{RunsAreFiltered};
ghost use Rattle.hc_model.specs.Reads.{OneHeadIsShown, BodiesAreRead, GivesNext, EndsWell, GivesStored, RunsReadWhole};
ghost use Rattle.hc_model.specs.Keys.{IsOfOneKey, LawOfOneKey, KeysAreKept, KeysBegin, OpensForKey};
ghost use Rattle.hc_model.specs.Laws.{SoundDeliversOnce, DeliveriesAreKept, BodiesAreKept, NumbersAreKept, NamesAreKept, OneCurrentIsKept, StoresAreKept, StartsAreSound, WholeIsWhole, AfterEach, AreBound, KnowEnds, OwnedAfterEach, AreToBeShown, OwedAfterEach, OwnersAreKnown, TurnsAreOne, TurnsAreKept, TurnsBegin, HasOneTurn, KeysInRuns, BarrierIsKept, BarrierBegins, DoomsInRuns, OfHistories, IsBoundBehindDooms, TruncatedIsPrefix, IsTruthful, TurnsGo, ReadersGo, FewGiveWay, AreRead, AreUndue, ReadAbout, MeasuredAfterEach, BeginningsAreMeasured, AreGrowing, KeptByEntries, AreServed, AreHad, SurvivorsGoOn, BeginningsAreStarts, AfterDenials, OfRuns, OfRunsIn, LeavesInRuns, DeliversOnce, BodiesGrowInRuns, StoresGrow, WaitsEnd, FitsInRuns, FewInRuns};
ghost use Rattle.hc_model.specs.Owners.{Owners};
ghost use Rattle.hc_model.specs.Aims.{Aims, CaseWithoutAim};
ghost use Rattle.hc_model.specs.Alone.{Alone};
ghost use Rattle.hc_model.specs.Asking.{AsksAnew};
ghost use Rattle.hc_model.specs.Chains.{ChainsEnd};
ghost use Rattle.hc_model.specs.Endings.{Endings, Unended};
ghost use Rattle.hc_model.specs.Evictions.{EvictsOne, AnyLeavesOneCurrent, EvictionsComeLast, IdleButGone, MakesRoom, SomeGiveWay, HasNoRoom, HasTooLarge, WritesNothing};
ghost use Rattle.hc_model.specs.Frames.{PartsAreKept, OthersStay, OthersDontGo, GoneIsCaused, ExchangesStay, StandersStay, ReadersStay, StartingOverIsCaused, OthersStandStill, BoundStay, CurrentStays, FoundedIsCurrent};
ghost use Rattle.hc_model.specs.Fronts.{Fronts};
ghost use Rattle.hc_model.specs.Given.{Given};
ghost use Rattle.hc_model.specs.Growing.{Growing, StopsInRuns};
ghost use Rattle.hc_model.specs.Live.{FewLive, FewOpen, OpeningsAreCounted, WhoLeavesGoes};
ghost use Rattle.hc_model.specs.Losses.{Brings, Losses};
ghost use Rattle.hc_model.specs.Measures.{Measures};
ghost use Rattle.hc_model.specs.WithinLimits.{RequestsStayWithinLimits, HeadsComeWithinLimits, RequestsStayForTargets, KeysStayTargets};
ghost use Rattle.hc_model.specs.Numbers.{NumbersInRuns};
ghost use Rattle.hc_model.specs.Orders.{InOrder};
ghost use Rattle.hc_model.specs.Origins.{Origins};
ghost use Rattle.hc_model.specs.Resting.{RestsInRuns};
ghost use Rattle.hc_model.specs.Sizes.{Sizes};
ghost use Rattle.hc_model.specs.StoredHeads.{StoredHeads, Tags};
ghost use Rattle.hc_model.specs.Parts.{Parts};
ghost use Rattle.hc_model.specs.Runs.{FaultlessAreOwed, OwedIsOwed};
ghost use Rattle.hc_model.specs.ConsumerActs.{AnswersWhoPolls};
ghost use Rattle.hc_model.specs.Passed.{Passed};
ghost use Rattle.hc_model.specs.Places.{Places};
ghost use Rattle.hc_model.specs.Whose.{Whose};
ghost use Rattle.hc_model.specs.Sound.{OneFirst, Sound, RunsAreSound};

/// What shows the other laws holds of the tables of every run, from contents by which a store may begin: they
/// are sound, it is known whose each exchange is, and bodies are measured.
pub fn runs_are_sound()
    ensures sound { RunsAreSound }
    ensures owned { OfRuns Owners }
    ensures measured { OfRuns Measures }
{}

/// Delivered once, in every run: where a piece is accepted, none of its positions has come, and what a body
/// has stays, as does what is stored of it. What shows this holds again after each accepted event, whatever the store loses.
pub fn deliveries_come_once()
    ensures runs { OfRuns DeliversOnce }
    ensures grow { BodiesGrowInRuns }
    ensures stored { OfHistories StoresGrow }
    ensures once { SoundDeliversOnce }
    ensures kept { DeliveriesAreKept }
    ensures stay { BodiesAreKept }
{}

/// Each row of the tables has a number that was given out, and stands in its list, after each accepted
/// event: so numbers rise, and no number names two. What exchanges name is there.
pub fn numbers_are_given_out()
    ensures listed { NumbersAreKept }
    ensures named { NamesAreKept }
{}

/// All that came of a representation is stored until it is lost, what is stored came, and what is lost
/// is gone, after each accepted event, whatever the store loses.
pub fn stores_keep_what_came()
    ensures { StoresAreKept }
{}

/// Of each key one representation at most isn't gone, after each accepted event, whatever the store loses.
pub fn one_is_current()
    ensures { OneCurrentIsKept }
{}

/// Contents whose numbers were given out, and each of which has a key of its own, are sound; and those by
/// which a store may begin are such.
pub fn stores_begin_sound()
    ensures sound { StartsAreSound }
    ensures starts { BeginningsAreStarts }
{}

/// Over a whole run a consumer is shown one head at most, and given nothing before that.
pub fn one_head_is_shown()
    ensures { OneHeadIsShown }
{}

/// Every run reads whole. Each consumer is shown one head at most, before it is given anything, for a reason that
/// holds: the head came for it, or for its first hole, which joined; freshness allows it at that moment; or a
/// 304 that came for it selected what it is shown. What it is given after that is next in the body of that, as
/// its exchanges delivered it, and within the end that was shown; and it is told the end where that is.
pub fn runs_read_whole()
    ensures { RunsReadWhole }
{}

/// Over a whole run the bytes that a consumer was given, joined, are those of the body that it was shown,
/// from the position on from which it was shown it, as its exchanges delivered them. Each piece that it is
/// given is next, and within the end that it was shown. Who is told the end was given all up to it: to the
/// end that it was shown, and else to that of the body. Who was shown a head, and whose next byte is stored, is
/// given some by each accepted poll, unless the store fails.
pub fn one_body_is_read()
    ensures joined { BodiesAreRead }
    ensures next { GivesNext }
    ensures ended { EndsWell }
    ensures stored { OfHistories GivesStored }
{}

/// What is called Whole has every position below its total.
pub fn whole_is_whole()
    ensures { WholeIsWhole }
{}

/// The columns of the tables are filters of the list of entries, each in the words of its own meaning:
/// how an exchange was opened, its head, the bytes that it delivered, whether it ended and what it
/// joined; the request of a consumer, when it started over last, how much it was given and whether it was
/// shown a head; the pieces of a representation, those of them that are stored, and whether it was lost.
pub fn columns_are_filters()
    ensures { RunsAreFiltered }
{}

/// The law of one key: an entry of a run changes nothing of exchanges, representations and
/// consumers of other keys than that of its event, and what is new is of that key; but what makes
/// room is gone, and who waits for that starts over. What is of one key is so from the beginning,
/// and stays so. An exchange is opened with a request of the key of its consumer's start.
pub fn other_keys_stay()
    ensures law { LawOfOneKey }
    ensures kept { KeysAreKept }
    ensures begin { KeysBegin }
    ensures runs { KeysInRuns }
    ensures one { OfRuns IsOfOneKey }
    ensures opened { OfHistories OpensForKey }
{}

/// Whoever is bound to a representation is bound to one that is there; one at most became bound to it as
/// the only one, and that one knows its end; and whoever is bound and was shown no head founded, or its
/// first hole joined or is awaited: after each accepted event, whatever the store loses. What is being
/// written for several has a reader, and nothing is due for whoever reads it, after each accepted event
/// that a store may stand behind; and the open exchange of who is bound is about what that is bound to.
pub fn readers_are_bound()
    ensures there { AfterEach AreBound }
    ensures one { AfterEach OneFirst }
    ensures ends { AfterEach KnowEnds }
    ensures shown { OwnedAfterEach AreToBeShown }
    ensures read { OwedAfterEach AreRead }
    ensures undue { OwedAfterEach AreUndue }
    ensures about { OwedAfterEach ReadAbout }
{}

/// Whose each exchange is, and where its consumer waits for its head, is told at the beginning and
/// after each accepted event that a store may stand behind: an exchange is the own one of one consumer
/// at most, one without a head is that of the consumer for which it was opened, which stands where it
/// waits for it, whose open one has its head reads that past the store or is bound, and one that writes
/// for several is nobody's own. Who reads past the store and was shown no head may be shown it, or waits
/// for it.
pub fn owners_stay_known()
    ensures begun { OwnersAreKnown }
    ensures kept { OwedAfterEach Owners }
{}

/// What came of a body ends at its reach, which is within its length, as is where a consumer stops reading
/// it; and an open exchange brings no more than there is to come of it: from the beginning, and after each
/// accepted event that a store may stand behind.
pub fn bodies_stay_measured()
    ensures begun { BeginningsAreMeasured }
    ensures kept { MeasuredAfterEach Measures }
{}

/// While a writing is on, just what its exchange has brought is stored, from the first position on, and it
/// promises all that is missing: after each accepted event that a store may stand behind.
pub fn groups_grow()
    ensures { MeasuredAfterEach AreGrowing }
{}

/// Whoever is bound and has no failure due reads with others from a writing that is on, is the exclusive writer, or has
/// all that it needs stored; and each open exchange about a representation is that of its writing, or the
/// own one of the exclusive writer: after each accepted entry of a run.
pub fn readers_are_served()
    ensures served { KeptByEntries AreServed }
    ensures had { KeptByEntries AreHad }
{}

/// Who survives the loss of what is written for several goes on alone: it has its exchange, all that came up
/// to where that goes on, and nothing past it came that isn't stored.
pub fn survivors_go_on()
    ensures { SurvivorsGoOn }
{}

/// Of a key at most one exchange of the turn waits for its head, and its consumer has the turn, in every
/// run. What shows this holds from the beginning, and after each accepted entry.
pub fn one_has_the_turn()
    ensures one { TurnsAreOne }
    ensures kept { TurnsAreKept }
    ensures begin { TurnsBegin }
    ensures runs { OfRuns HasOneTurn }
{}

/// What isn't gone was opened after the last doom of its key, in every run, and so was what a consumer becomes
/// bound to. What shows this holds from the beginning, and after each entry.
pub fn dooms_are_a_barrier()
    ensures kept { BarrierIsKept }
    ensures begin { BarrierBegins }
    ensures runs { DoomsInRuns }
    ensures binds { OfHistories IsBoundBehindDooms }
{}

/// What is called Truncated has some first positions and no other, and what is called Whole every position below
/// its total: in every run records are truthful. The former holds of sound tables, where as many bytes are stored
/// as positions.
pub fn truncated_is_a_prefix()
    ensures runs { OfRuns IsTruthful }
    ensures front { TruncatedIsPrefix }
{}

/// No wait goes in a circle, in any run: who has the turn of its key doesn't wait for it; who is bound, or reads
/// past the store, waits for no turn and for no other consumer; whom a busy one waits for is bound; and what
/// is current is read by somebody while its length isn't known or it is written by several.
pub fn some_go_on()
    ensures runs { OfRuns WaitsEnd }
    ensures turn { TurnsGo }
    ensures reader { ReadersGo }
{}

/// Waits end, in every run: whatever a live consumer is answered at any moment, it does something, or waits for an
/// exchange that is open and has no head or was asked, or behind another live consumer of which the same holds; and
/// behind that one for one more at most.
pub fn chains_of_waits_end()
    ensures { OfRuns ChainsEnd }
{}

/// What is stored fits the limit in every run, and an entry evicts at most two: a piece has at most twice what
/// a slot weighs. The latter holds wherever what is stored before it fits.
pub fn few_give_way()
    ensures fits { FitsInRuns }
    ensures runs { FewInRuns }
    ensures few { FewGiveWay }
{}

/// What makes room comes last: an accepted event is answered by what makes room, and then by the acts that are owed without
/// that, which show the same flaw and allow the same ones; and the tables are those after it without that, once each of
/// those is evicted, one after another. One that is evicted is gone, and whoever was let through to it starts over: nobody
/// is bound, live or current for another key who wasn't. What is idle is what was, but for what the event itself makes gone;
/// and which of them give way is told by a loop: while all pass the limit with what is written, the first one goes; none
/// where even all of them are too little, the write is too large, or nothing is written.
pub fn evictions_come_last()
    ensures last { EvictionsComeLast }
    ensures one { EvictsOne }
    ensures any { AnyLeavesOneCurrent }
    ensures idle { IdleButGone }
    ensures room { MakesRoom }
    ensures enough { SomeGiveWay }
    ensures full { HasNoRoom }
    ensures large { HasTooLarge }
    ensures none { WritesNothing }
{}

/// What an entry doesn't speak of stays. Of a representation: its head but for one that updates it and for the end of what
/// founded it, its writer but for a head that resumes it, its bytes but for a piece of its family, its detached
/// reader but for its loss; and it goes only for a cause. So do the rows of exchanges, and of consumers at another's event: one
/// stands where it stood unless it starts over, though a failure may become due to it, or the exchange of a lost writing
/// its own. What is current for a key stays so unless it goes or another is founded, which is current then.
pub fn what_is_not_spoken_of_stays()
    ensures parts { PartsAreKept }
    ensures representations { OthersStay }
    ensures going { OthersDontGo }
    ensures gone { GoneIsCaused }
    ensures exchanges { ExchangesStay }
    ensures consumers { StandersStay }
    ensures readers { ReadersStay }
    ensures over { StartingOverIsCaused }
    ensures standing { OthersStandStill }
    ensures bound { BoundStay }
    ensures current { CurrentStays }
    ensures founded { FoundedIsCurrent }
{}

/// A store may begin with what a run leaves, but for the limits of numbers, where no head that came had more
/// fields than one from outside may have, and who started asked for a target. What shows this holds in every
/// run: where who started asked for a target, each body has one as its key; each byte of a body is from an
/// exchange that founded or joined it, or was there at the beginning, and a number is said by no other body;
/// as many bytes are stored as positions, and no more than an entry may have; a stored head was asked for
/// before it came, and tells no length among its fields; and what has no tag by which others could join it
/// comes from its one exchange, or is all there.
pub fn stores_begin_again()
    ensures again { LeavesInRuns }
    ensures keys { KeysStayTargets }
    ensures origins { OfRuns Origins }
    ensures sizes { OfRunsIn Sizes }
    ensures heads { OfRuns StoredHeads }
    ensures tags { OfRuns Tags }
{}

/// Where a consumer stands tells what holds of it, in every run: who waits in the line or for a body, or is to be
/// told a failure, was shown no head and given nothing, has nothing due and no open exchange; who has the turn
/// neither, but waits for the head of its own; who reads past the store reads its own, which is of no
/// representation, was given no more than came, and has nothing due while that is open; and each open exchange
/// with a head that is of none is read so. Who stands in the line owns nothing; who is bound may read from the
/// store, and who reads past it or failed may ask the origin.
pub fn places_are_known()
    ensures { OfRuns Places }
{}

/// The lists stand in order, in every run: who started and what was opened by falling numbers, the last of each first;
/// and what was founded once each, also in the order of use.
pub fn lists_are_in_order()
    ensures { OfRuns InOrder }
{}

/// Where an answer past the store ends is known once it is over without a failure: where all of it came. An open exchange
/// has yet to bring some of what it promised. The detached reader of what has no known end reads, without a failure, from
/// the exchange that founded it, which is still open. So in every run.
pub fn endings_are_known()
    ensures past { OfRuns Endings }
    ensures alone { OfRuns Unended }
{}

/// Each open exchange is somebody's, in every run: of no representation, it is the own one of its consumer, which
/// waits for its head or reads it; else it is that of the writer group, or the own one of one who is bound to
/// what it brings, for whom it was opened or the detached reader. Who owns an open one stands where it may, about
/// what nobody is bound to none is open, and what is written is of the key of who asked for it.
pub fn exchanges_are_somebodys()
    ensures { OfRuns Whose }
{}

/// Who was let through waits for what is current for its key, and the 304 that it kept came from its own exchange,
/// which is over, in every run; who kept none owns none.
pub fn passed_wait_for_current()
    ensures { OfRuns Passed }
{}

/// Who asks for bytes of what is stored, whether that still holds, or for what that doesn't answer names it, in every
/// run: a representation that is there, of the key of its request. Who asks since nothing was current names none; and
/// what joined, or fills a first hole, is about just that. But for who validates or asks for a hole the case of a head is
/// the same whatever its exchange is about.
pub fn aims_are_named()
    ensures named { OfRuns Aims }
    ensures cases { CaseWithoutAim }
{}

/// What a reader was given stands in the body from where it began, so not past what came, and not past its end, in every
/// run; whose end isn't known began at the first position.
pub fn given_bytes_are_there()
    ensures { OfRuns Given }
{}

/// Numbers stay small, in every run from contents whose lengths heads can tell: what heads tell is below 2^62 and ends
/// by it, and what none tells is no more than was received. So of the end of a promise, of fronts, known lengths and
/// reaches, and of where a consumer begins and ends to read.
pub fn numbers_stay_small()
    ensures { NumbersInRuns }
{}

/// No more consumers are live than the refusals let start, in every run.
pub fn few_are_live()
    ensures { OfRuns FewLive }
{}

/// No more exchanges are open than consumers are live, in every run: each open one is that from which a live
/// consumer reads, as its own or as a member of the writer group, and nobody reads from two.
pub fn few_are_open()
    ensures { OfRuns FewOpen }
{}

/// A live consumer that is cancelled leaves, in every run: that is accepted, it is over by it, and all others are as
/// live as they were.
pub fn who_leaves_goes()
    ensures { OfRunsIn WhoLeavesGoes }
{}

/// An event opens one exchange at most. So in every run.
pub fn openings_are_counted()
    ensures { OpeningsAreCounted }
{}

/// What is owed of a store that didn't fail is told by the tables and the event alone: what it refuses, it refuses
/// for its size.
pub fn faultless_entries_are_owed()
    ensures { FaultlessAreOwed }
{}

/// A store that never fails may stand behind each run: what it owes to an event, no earlier than the last one, is an
/// entry with which the run may go on.
pub fn owed_is_owed()
    ensures { OfRunsIn OwedIsOwed }
{}

/// A poll tells its consumer one thing at most: a head, bytes, its end, a failure, or what it is to wait for, and
/// behind that comes nothing. No other event tells a consumer anything. So in every run.
pub fn who_polls_is_answered()
    ensures { OfHistories AnswersWhoPolls }
{}

/// An exchange isn't asked for bytes behind its head, nor behind a piece of it, before a poll does, in every run.
pub fn exchanges_are_asked_anew()
    ensures { OfHistories AsksAnew }
{}

/// Where each request and each head that comes has no more fields than one from outside may have, each
/// request that is kept has no more either. Where who starts asks for a target, so does each request that
/// is kept.
pub fn requests_stay_within_limits()
    ensures requests { RequestsStayWithinLimits }
    ensures targets { RequestsStayForTargets }
    ensures heads { HeadsComeWithinLimits }
{}

/// A range that is read isn't empty, of who founded with a part or filled its first hole, and who
/// founded with the whole reads all of it, in every run.
pub fn parts_have_bytes()
    ensures { OfRuns Parts }
{}

/// Who writes a representation alone is the only one that is bound to it, and came alone, until it is lost, in every
/// run. Whoever came alone and has no failure due, while it isn't written for several, writes it exactly where it has
/// an exchange of its own, or a hole ahead.
pub fn writers_are_alone()
    ensures { OfRuns Alone }
{}

/// Whoever came alone to a representation and has nothing more to come has nothing more ever after, as long as no
/// failure is due to it and the representation isn't lost, at each entry of a run. While somebody is bound to it and
/// nobody writes it alone, nobody writes it alone after the next entry.
pub fn who_rests_rests_on()
    ensures { RestsInRuns }
{}

/// One open exchange at most brings a representation, in every run, and what isn't gone has a known length, or is
/// brought by the one that founded it, for several. Where the exchange stops that brings it, nothing brings it any more.
pub fn one_exchange_brings_it()
    ensures runs { OfRuns Growing }
    ensures stops { StopsInRuns }
{}

/// What an exchange brought stands in the body that it founded or joined, and nothing else there is from it, in every
/// run. For the detached reader, whether or not a failure is due to it, what its own exchange brought
/// is held from one position on, up to the front, and else all that came ahead of it is stored: so what it is given
/// next, where nothing is stored, is what its exchange brought there.
pub fn losses_are_held()
    ensures brings { OfRuns Brings }
    ensures held { OfRuns Losses }
{}

/// A denied entry leaves sound tables sound, owners known and bodies measured.
pub fn denials_keep_soundness()
    ensures sound { AfterDenials Sound }
    ensures owned { AfterDenials Owners }
    ensures measured { AfterDenials Measures }
{}

/// The own open exchange of who is bound, and has no failure due, goes on no earlier than where it began to read, in
/// every run.
pub fn fronts_begin()
    ensures { OfRuns Fronts }
{}
