//! The texts of the options, before their forms are judged.

ghost use Rattle.std.specs.Prelude.{◌≡◌, map, option_map};
ghost use Rattle.clap.specs.Matches.{raw_values};
ghost use Rattle.clap.specs.Words.{first_value, found_of, matched_of};
ghost use Rattle.serve_options.specs.Given.{texts_by};

use clap::ArgMatches;
use std::marker::Model;

/// The texts of the options, each where it is there.
#[derive(Drop)]
pub(crate) struct Texts<'a> {
    pub(crate) seed: Option<&'a str>,
    pub(crate) port: Option<&'a str>,
    pub(crate) recorder: Option<&'a str>,
    pub(crate) level: Option<&'a str>,
    pub(crate) format: Option<&'a str>,
    pub(crate) admin: Option<&'a str>,
    pub(crate) allow: Option<&'a [&'a str]>,
    pub(crate) silence: Option<&'a str>,
    pub(crate) linger: Option<&'a str>,
    pub(crate) faces: Option<&'a str>,
    pub(crate) page: Option<&'a str>,
    pub(crate) names: Option<&'a [&'a str]>,
}

impl<'a> Model for Texts<'a> {
    ghost use Rattle.std.specs.Prelude.{map, option_map};
    ghost use Rattle.serve_options.specs.Given.{Texts as GivenTexts};

    ghost Value = { GivenTexts };

    ghost view = { λ s. record { seed = option_map (λ t. t.now) s.seed; port = option_map (λ t. t.now) s.port; recorder = option_map (λ t. t.now) s.recorder; level = option_map (λ t. t.now) s.level; format = option_map (λ t. t.now) s.format; admin = option_map (λ t. t.now) s.admin; allow = option_map (λ l. map (λ t. t.now) l.now) s.allow; silence = option_map (λ t. t.now) s.silence; linger = option_map (λ t. t.now) s.linger; faces = option_map (λ t. t.now) s.faces; page = option_map (λ t. t.now) s.page; names = option_map (λ l. map (λ t. t.now) l.now) s.names } };
}

/// What the command found.
pub(crate) fn texts_in<'a>(matches: &'a ArgMatches<'_>) -> Texts<'a>
    ensures { result ≡ texts_by (first_value (found_of matches.now)) (λ name. option_map raw_values (matched_of (found_of matches.now) name)) }
{
    Texts {
        seed: matches.get_str("seed"),
        port: matches.get_str("port"),
        recorder: matches.get_str("recorder"),
        level: matches.get_str("log"),
        format: matches.get_str("log-format"),
        admin: matches.get_str("admin"),
        allow: matches.get_strs("allow"),
        silence: matches.get_str("silence"),
        linger: matches.get_str("linger"),
        faces: matches.get_str("faces"),
        page: matches.get_str("page"),
        names: matches.get_strs("name"),
    }
}
