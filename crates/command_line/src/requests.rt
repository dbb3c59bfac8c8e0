//! The request of each command, from the values of its arguments.

ghost use Rattle.std.specs.Prelude.{◌≡◌, ◌≢◌, ◌<◌, ◌↔◌, IfSome, IsSomeAnd, IsTrue, List, MatchOption};
ghost use Rattle.std.specs.Prelude.{MatchResult, get_or, length, map};
ghost use Rattle.std.specs.List.{All, Any};
ghost use Rattle.clap.specs.Words.{Text, found_of, rows_of, subcommand_rows_of};
ghost use Rattle.command_requests.specs.declared.requests.CommandRequest.{CommandRequest};
ghost use Rattle.command_requests.specs.declared.requests.DeparturesRequest.{DeparturesRequest};
ghost use Rattle.command_requests.specs.declared.requests.ImageRequest.{ImageRequest};
ghost use Rattle.command_requests.specs.declared.requests.NamedFolder.{NamedFolder};
ghost use Rattle.command_requests.specs.declared.requests.ProfileRequest.{ProfileRequest};
ghost use Rattle.command_requests.specs.declared.requests.ServeRequest.{ServeRequest};
ghost use Rattle.command_line.specs.declared.reading.NoCommand.{NoCommand};
ghost use Rattle.command_line.specs.Requests.{AreDistinct, AsksAnswer, AsksDepartures, Finds, HasDeparturesOptions};
ghost use Rattle.command_line.specs.Requests.{HasFeeds, HasList, HasPictureRows, HasPlan, HasProfileOptions};
ghost use Rattle.command_line.specs.Requests.{HasSeconds, HasServeOptions, HasStops, HasWorkers, IsBuild, IsDays, IsDepartures};
ghost use Rattle.command_line.specs.Requests.{HasStopList, IsHelp, IsImageRequest, IsInfo, IsJourney, IsMatrix};
ghost use Rattle.command_line.specs.Requests.{IsProfile, IsRequest, IsServe};
ghost use Rattle.command_line.specs.Requests.{IsStations, IsStops, IsTables, IsUpgrade, Reads, text_sought};

use crate::messages::{
    feed_named_twice, stop_given_twice, too_many_stops, wrong_feed, wrong_value,
};
use crate::options::{
    clock_at, count_at, criterion_at, day_at, is_given, number_at, port_at, text_at, texts_at,
    zone_at,
};
use crate::reading::NoCommand;
use crate::values::named_folder;
use clap::ArgMatches;
use command_requests::{
    AnswerForm, BuildRequest, CommandRequest, DaysRequest, DeparturesForm, DeparturesRequest,
    ImageRequest, InfoRequest, JourneyRequest, MatrixRequest, NamedFolder, PictureRows, PlanText,
    ProfileRequest, Question, Seconds, ServeRequest, StationsRequest, StopsRequest, TableWorkers,
    TablesRequest, UpgradeRequest, Workers, days_of,
};
use std::alloc::Global;

/// The request of words that clap accepts.
pub(crate) fn request_in<'a>(
    alloc: Global,
    matches: &ArgMatches<'a>,
) -> Result<CommandRequest<'a>, NoCommand>
    ensures { Finds (λ request. IsSomeAnd (subcommand_rows_of matches.now)
        (λ command. IsRequest command.0 command.1 request)) result }
{
    match matches.subcommand() {
        Some((name, inner)) => named_request(alloc, name, inner),
        None => Err(wrong_value(alloc, "", matches)),
    }
}

// The request of the command of this name.
fn named_request<'a>(
    alloc: Global,
    name: &str,
    matches: &ArgMatches<'a>,
) -> Result<CommandRequest<'a>, NoCommand>
    ensures { Finds (IsRequest name.now (rows_of (found_of matches.now))) result }
{
    match name {
        "profile" => {
            let request = profile_request(alloc, matches)?;
            Ok(CommandRequest::OverImage(ImageRequest::Profile(request)))
        }
        "departures" => {
            let request = departures_request(alloc, matches)?;
            Ok(CommandRequest::OverImage(ImageRequest::Departures(request)))
        }
        "serve" => Ok(CommandRequest::Serve(serve_request(alloc, matches)?)),
        _ => match plain_request(name, matches) {
            Some(request) => Ok(request),
            None => Err(wrong_value(alloc, name, matches)),
        },
    }
}

// The request of a command that takes no memory; `None` if a value has a wrong form.
fn plain_request<'a>(name: &str, matches: &ArgMatches<'a>) -> Option<CommandRequest<'a>>
    ensures { MatchOption result ((r : CommandRequest) → IsRequest name.now (rows_of (found_of matches.now)) r
        → HasList r) (IsRequest name.now (rows_of (found_of matches.now))) }
{
    match name {
        "matrix" => matrix_request(matches).map(CommandRequest::Matrix),
        "tables" => tables_request(matches).map(CommandRequest::Tables),
        "days" => days_request(matches).map(CommandRequest::Days),
        "stations" => stations_request(matches).map(CommandRequest::Stations),
        "build" => build_request(matches).map(CommandRequest::Build),
        _ => image_request(name, matches).map(CommandRequest::OverImage),
    }
}

// The same of a command over an image.
fn image_request<'a>(name: &str, matches: &ArgMatches<'a>) -> Option<ImageRequest<'a>>
    ensures { MatchOption result ((r : ImageRequest) → IsImageRequest name.now (rows_of (found_of matches.now)) r
        → HasStopList r) (IsImageRequest name.now (rows_of (found_of matches.now))) }
{
    match name {
        "verify" => text_at(matches, "image").map(ImageRequest::Verify),
        "info" => info_request(matches).map(ImageRequest::Info),
        "journey" => journey_request(matches).map(ImageRequest::Journey),
        "stops" => stops_request(matches).map(ImageRequest::Stops),
        "upgrade" => upgrade_request(matches).map(ImageRequest::Upgrade),
        _ => None,
    }
}

fn info_request<'a>(matches: &ArgMatches<'a>) -> Option<InfoRequest<'a>>
    ensures { Reads IsInfo matches.now result }
{
    Some(InfoRequest {
        image: text_at(matches, "image")?,
        json: is_given(matches, "json"),
    })
}

// The text that is looked for; none is the empty one.
fn sought<'a>(matches: &ArgMatches<'a>) -> &'a str
    ensures { result.now ≡ text_sought (rows_of (found_of matches.now)) }
{
    match text_at(matches, "text") {
        Some(text) => text,
        None => "",
    }
}

fn stops_request<'a>(matches: &ArgMatches<'a>) -> Option<StopsRequest<'a>>
    ensures { Reads IsStops matches.now result }
{
    Some(StopsRequest {
        image: text_at(matches, "image")?,
        text: sought(matches),
        json: is_given(matches, "json"),
    })
}

fn stations_request<'a>(matches: &ArgMatches<'a>) -> Option<StationsRequest<'a>>
    ensures { Reads IsStations matches.now result }
{
    Some(StationsRequest {
        folder: text_at(matches, "folder")?,
        text: sought(matches),
        json: is_given(matches, "json"),
    })
}

fn tables_request<'a>(matches: &ArgMatches<'a>) -> Option<TablesRequest<'a>>
    ensures { Reads IsTables matches.now result }
{
    Some(TablesRequest {
        folder: text_at(matches, "folder")?,
        all_faults: is_given(matches, "all-faults"),
        json: is_given(matches, "json"),
    })
}

fn days_request<'a>(matches: &ArgMatches<'a>) -> Option<DaysRequest<'a>>
    ensures { Reads IsDays matches.now result }
{
    Some(DaysRequest {
        folder: text_at(matches, "folder")?,
        json: is_given(matches, "json"),
    })
}

fn upgrade_request<'a>(matches: &ArgMatches<'a>) -> Option<UpgradeRequest<'a>>
    ensures { Reads IsUpgrade matches.now result }
{
    Some(UpgradeRequest {
        image: text_at(matches, "image")?,
        out: text_at(matches, "out")?,
    })
}

fn journey_request<'a>(matches: &ArgMatches<'a>) -> Option<JourneyRequest<'a>>
    ensures { Reads IsJourney matches.now result }
{
    Some(JourneyRequest {
        image: text_at(matches, "image")?,
        text: text_at(matches, "text")?,
        question: Question {
            from: text_at(matches, "from")?,
            to: text_at(matches, "to")?,
            after: clock_at(matches, "after")?,
            until: clock_at(matches, "until")?,
            by: clock_at(matches, "by")?,
        },
    })
}

fn profile_request<'a>(
    alloc: Global,
    matches: &ArgMatches<'a>,
) -> Result<ProfileRequest<'a>, NoCommand>
    ensures { Finds (IsProfile (rows_of (found_of matches.now))) result }
{
    let from = stops_at(alloc, "profile", matches, "from")?;
    let to = stops_at(alloc, "profile", matches, "to")?;
    match profile_between(matches, from, to) {
        Some(request) => Ok(request),
        None => Err(wrong_value(alloc, "profile", matches)),
    }
}

// `None` if a value has a wrong form, or options stand together that may not.
fn profile_between<'a>(
    matches: &ArgMatches<'a>,
    from: Vec<&'a str>,
    to: Vec<&'a str>,
) -> Option<ProfileRequest<'a>>
    ensures { MatchOption result ((r : ProfileRequest) → ¬ (HasProfileOptions (rows_of (found_of matches.now)) r))
        (λ r. HasProfileOptions (rows_of (found_of matches.now)) r × (r.from ≡ from.entry) × (r.to ≡ to.entry)) }
{
    Some(ProfileRequest {
        image: text_at(matches, "image")?,
        from,
        to,
        after: clock_at(matches, "after")?,
        until: clock_at(matches, "until")?,
        by: clock_at(matches, "by")?,
        criterion: criterion_at(matches, "criterion")?,
        form: answer_form(matches)?,
        rows: rows_at(matches)?,
        picture: text_at(matches, "picture"),
    })
}

fn answer_form(matches: &ArgMatches<'_>) -> Option<AnswerForm>
    ensures { Reads AsksAnswer matches.now result }
{
    match (
        is_given(matches, "names"),
        is_given(matches, "json"),
        is_given(matches, "legs"),
    ) {
        (false, false, false) => Some(AnswerForm::Numbers),
        (true, false, false) => Some(AnswerForm::Names),
        (false, true, false) => Some(AnswerForm::Json),
        (false, true, true) => Some(AnswerForm::JsonLegs),
        _ => None,
    }
}

// How many rows a picture has; `None` if the value has a wrong form, or stands without a picture.
fn rows_at(matches: &ArgMatches<'_>) -> Option<PictureRows>
    ensures { Reads HasPictureRows matches.now result }
{
    if text_at(matches, "rows").is_none() {
        return Some(PictureRows::plain());
    }
    text_at(matches, "picture")?;
    PictureRows::of(number_at(matches, "rows")?)
}

fn departures_request<'a>(
    alloc: Global,
    matches: &ArgMatches<'a>,
) -> Result<DeparturesRequest<'a>, NoCommand>
    ensures { Finds (IsDepartures (rows_of (found_of matches.now))) result }
{
    let to = stops_at(alloc, "departures", matches, "to")?;
    match departures_to(matches, to) {
        Some(request) => Ok(request),
        None => Err(wrong_value(alloc, "departures", matches)),
    }
}

// `None` if a value has a wrong form, or options stand together that may not.
fn departures_to<'a>(matches: &ArgMatches<'a>, to: Vec<&'a str>) -> Option<DeparturesRequest<'a>>
    ensures { MatchOption result ((r : DeparturesRequest) → ¬ (HasDeparturesOptions (rows_of (found_of matches.now)) r))
        (λ r. HasDeparturesOptions (rows_of (found_of matches.now)) r × (r.to ≡ to.entry)) }
{
    Some(DeparturesRequest {
        image: text_at(matches, "image")?,
        to,
        after: clock_at(matches, "after")?,
        until: clock_at(matches, "until")?,
        by: clock_at(matches, "by")?,
        criterion: criterion_at(matches, "criterion")?,
        form: departures_form(matches)?,
        from: text_at(matches, "from"),
    })
}

fn departures_form(matches: &ArgMatches<'_>) -> Option<DeparturesForm>
    ensures { Reads AsksDepartures matches.now result }
{
    match (
        is_given(matches, "summary"),
        is_given(matches, "json"),
        is_given(matches, "no-journeys"),
    ) {
        (false, false, false) => Some(DeparturesForm::Journeys),
        (false, false, true) => Some(DeparturesForm::Points),
        (true, false, false) => Some(DeparturesForm::Summary),
        (false, true, false) => Some(DeparturesForm::Json),
        (false, true, true) => Some(DeparturesForm::JsonPoints),
        (true, true, false) => Some(DeparturesForm::JsonSummary),
        _ => None,
    }
}

fn matrix_request<'a>(matches: &ArgMatches<'a>) -> Option<MatrixRequest<'a>>
    ensures { Reads IsMatrix matches.now result }
{
    Some(MatrixRequest {
        image: text_at(matches, "image")?,
        out: text_at(matches, "out")?,
        to: text_at(matches, "to")?,
        from: text_at(matches, "from"),
        after: clock_at(matches, "after")?,
        until: clock_at(matches, "until")?,
        by: clock_at(matches, "by")?,
        criterion: criterion_at(matches, "criterion")?,
        each: is_given(matches, "each"),
        workers: maybe_workers(matches)?,
        progress: is_given(matches, "progress"),
    })
}

// How many threads are asked for, if any number is; `None` if the value has a wrong form.
fn maybe_workers(matches: &ArgMatches<'_>) -> Option<Option<TableWorkers>>
    ensures { Reads HasWorkers matches.now result }
{
    if text_at(matches, "workers").is_none() {
        return Some(None);
    }
    Some(Some(TableWorkers::of(number_at(matches, "workers")?)?))
}

fn build_request<'a>(matches: &ArgMatches<'a>) -> Option<BuildRequest<'a>>
    ensures { Reads IsBuild matches.now result }
{
    Some(BuildRequest {
        folder: text_at(matches, "folder")?,
        out: text_at(matches, "out")?,
        plan: plan_at(matches, is_given(matches, "strict"))?,
        progress: is_given(matches, "progress"),
        all_faults: is_given(matches, "all-faults"),
        json: is_given(matches, "json"),
    })
}

fn plan_at<'a>(matches: &ArgMatches<'a>, strict: bool) -> Option<PlanText<'a>>
    ensures { Reads (λ rows. HasPlan rows strict) matches.now result }
{
    Some(PlanText {
        first: day_at(matches, "first")?,
        days: days_of(number_at(matches, "days")?)?,
        zone: zone_at(matches, "zone")?,
        strict,
    })
}

fn serve_request<'a>(alloc: Global, matches: &ArgMatches<'a>) -> Result<ServeRequest<'a>, NoCommand>
    ensures { Finds (IsServe (rows_of (found_of matches.now))) result }
{
    let feeds = feeds_at(alloc, matches)?;
    match server_of(matches, feeds) {
        Some(request) => Ok(request),
        None => Err(wrong_value(alloc, "serve", matches)),
    }
}

// `None` if a value has a wrong form.
fn server_of<'a>(matches: &ArgMatches<'a>, feeds: Vec<NamedFolder<'a>>) -> Option<ServeRequest<'a>>
    ensures { MatchOption result ((r : ServeRequest) → ¬ (HasServeOptions (rows_of (found_of matches.now)) r))
        (λ r. HasServeOptions (rows_of (found_of matches.now)) r × (r.feeds ≡ feeds.entry)) }
{
    Some(ServeRequest {
        image: text_at(matches, "image")?,
        port: port_at(matches, "port")?,
        workers: Workers::of(number_at(matches, "workers")?)?,
        sessions: count_at(matches, "sessions")?,
        legs: is_given(matches, "legs"),
        log: is_given(matches, "log"),
        idle: maybe_seconds(matches, "idle")?,
        longest: maybe_seconds(matches, "longest")?,
        sets: is_given(matches, "sets"),
        plan: plan_at(matches, false)?,
        feeds,
    })
}

// How many seconds an option gives, if it is there; `None` if its value has a wrong form.
fn maybe_seconds(matches: &ArgMatches<'_>, option: &str) -> Option<Option<Seconds>>
    ensures { Reads (λ rows. HasSeconds rows option.now) matches.now result }
{
    if text_at(matches, option).is_none() {
        return Some(None);
    }
    Some(Some(Seconds::of(number_at(matches, option)?)?))
}

/// How many stops a side of a question may have.
const MOST_STOPS: usize = 1000;

// The stop_ids that an option of a command has, each once and at most 1000 of them.
fn stops_at<'a>(
    alloc: Global,
    command: &str,
    matches: &ArgMatches<'a>,
    option: &str,
) -> Result<Vec<&'a str>, NoCommand>
    ensures { MatchResult result (λ stops. HasStops (rows_of (found_of matches.now)) option.now
        (map (λ stop. stop.now) stops.items)) (λ fault. (¬ (IsHelp fault))
        × (fault ≢ NoCommand.OutOfMemory → (stops : List Text)
        → ¬ (HasStops (rows_of (found_of matches.now)) option.now stops))) }
{
    let Some(stops) = texts_at(matches, option) else {
        return Ok(Vec::new(alloc));
    };
    if stops.len() > MOST_STOPS {
        return Err(too_many_stops(alloc, command, option, stops.len()));
    }
    if let Some((first, index)) = twice_in(stops) {
        return Err(stop_given_twice(alloc, command, option, stops[index], first, index));
    }
    match stops.to_vec(alloc) {
        Ok(stops) => Ok(stops),
        Err(_) => Err(NoCommand::OutOfMemory),
    }
}

// The places of a text that is there twice.
fn twice_in(texts: &[&str]) -> Option<(usize, usize)>
    ensures bound { IfSome result (λ places. places.1 < length texts.now) }
    ensures apart { MatchOption result (AreDistinct (map (λ text. text.now) texts.now))
        (λ _. ¬ (AreDistinct (map (λ text. text.now) texts.now))) }
{
    for index in 0..texts.len() {
        let before = &texts[..index];
        if let Some(first) = place_of(texts[index], before) {
            return Some((first, index));
        }
    }
    None
}

// Where a text is first among others.
fn place_of(text: &str, others: &[&str]) -> Option<usize>
    ensures { MatchOption result (All (λ other. other ≢ text.now) (map (λ other. other.now) others.now))
        (λ place. (place < length others.now)
        × ((d : Text) → get_or (map (λ other. other.now) others.now) place d ≡ text.now)) }
{
    for place in 0..others.len() {
        if others[place] == text {
            return Some(place);
        }
    }
    None
}

// The feeds that the words name, no two of them alike.
fn feeds_at<'a>(alloc: Global, matches: &ArgMatches<'a>) -> Result<Vec<NamedFolder<'a>>, NoCommand>
    ensures { MatchResult result (λ feeds. HasFeeds (rows_of (found_of matches.now)) feeds.items)
        (λ fault. (¬ (IsHelp fault))
        × (fault ≢ NoCommand.OutOfMemory → (feeds : List NamedFolder)
        → ¬ (HasFeeds (rows_of (found_of matches.now)) feeds))) }
{
    let mut feeds = Vec::new(alloc);
    let Some(words) = texts_at(matches, "feeds") else {
        return Ok(feeds);
    };
    for word in words {
        let Some(feed) = named_folder(*word) else {
            return Err(wrong_feed(alloc, word));
        };
        if has_name(&feeds, feed.name) {
            return Err(feed_named_twice(alloc, word));
        }
        let Ok(()) = feeds.push(feed) else {
            return Err(NoCommand::OutOfMemory);
        };
    }
    Ok(feeds)
}

fn has_name(feeds: &[NamedFolder<'_>], name: &str) -> bool
    ensures { IsTrue result ↔ Any (λ feed. feed.name.now ≡ name.now) feeds.now }
{
    feeds.iter().any(|feed| feed.name == name)
}
