//! The way in for browsers.

use crate::visit::{Visit, Wish};
use live_page::{PAGE, SCRIPT, STYLE};
use screen_script::PAINTER;
use sockets::{Bell, watch_over};
use std::alloc::Global;
use std::io;
use std::io::{BufWriter, Write};
use std::net::{SocketAddr, TcpStream};
use std::sync::{Arc, Wait};
use std::time::Clock;
use telling::Telling;
use web_door::{Judged, Refusal, judge, write_answer};
use web_lobby::{
    Extent, Head, Heard, Lobby, Outlet, UPGRADE_REQUIRED, hear, status_of, wait_for_end,
    write_answer as write_response, write_failure, write_head, write_refusal,
};
use web_target::Asked;

const OK: &str = "200 OK";

const HTML: &str = "text/html; charset=utf-8";

const JAVASCRIPT: &str = "text/javascript; charset=utf-8";

const CSS: &str = "text/css; charset=utf-8";

const JSON: &str = "application/json";

/// Where browsers are heard, and given what isn't of a recording: the page, its scripts and its
/// style, or why their request is refused.
#[derive(Drop)]
pub struct Porch<'a, R> {
    pub rt: &'a R,
    pub alloc: Global,
    /// What ends each wait.
    pub bell: &'a Bell,
    /// The browsers that are served.
    pub lobby: &'a Lobby,
    pub telling: &'a Telling,
    /// By which names browsers may ask, besides addresses and `localhost`.
    pub names: &'a [&'a [u8]],
}

// The status of an answer that refuses.
fn status_of_refusal(refusal: Refusal) -> &'static str {
    match refusal {
        Refusal::Head(fault) => status_of(fault),
        Refusal::NoUpgrade => UPGRADE_REQUIRED,
        Refusal::Foreign => "403 Forbidden",
        Refusal::Early => "400 Bad Request",
    }
}

impl<'a, R: Clock + Wait> Porch<'a, R> {
    // What came, if it is more than the beginning of a request.
    fn judge_whole(&self, head: &[u8]) -> Option<Judged> {
        match judge(head, self.names) {
            Judged::Unfinished => None,
            judged => Some(judged),
        }
    }

    // Answers as much as is asked for, and ends the connection.
    fn give(
        &self,
        stream: &TcpStream,
        number: u64,
        media: &str,
        body: &[u8],
        extent: Extent,
    ) -> io::Result<()> {
        let mut out = BufWriter::new(self.alloc, Outlet::new(self.rt, self.bell, stream)?)?;
        write_response(&mut out, OK, media, body, extent)?;
        out.flush()?;
        wait_for_end(self.rt, self.bell, self.lobby, stream, number)
    }

    // Answers the head of what isn't made for it, and ends the connection. Its length isn't known.
    fn give_head(&self, stream: &TcpStream, number: u64, media: &str) -> io::Result<()> {
        let mut out = BufWriter::new(self.alloc, Outlet::new(self.rt, self.bell, stream)?)?;
        write_head(
            &mut out,
            Head {
                status: OK,
                media,
                size: None,
            },
        )?;
        out.flush()?;
        wait_for_end(self.rt, self.bell, self.lobby, stream, number)
    }

    // Says why a request is refused, and ends the connection.
    fn refuse(
        &self,
        stream: &TcpStream,
        number: u64,
        refusal: Refusal,
        extent: Extent,
    ) -> io::Result<()> {
        let mut out = BufWriter::new(self.alloc, Outlet::new(self.rt, self.bell, stream)?)?;
        write_refusal(&mut out, status_of_refusal(refusal), refusal, extent)?;
        out.flush()?;
        wait_for_end(self.rt, self.bell, self.lobby, stream, number)
    }

    // Answers a viewer's request.
    fn upgrade(&self, stream: &TcpStream, key: &[u8; 28]) -> io::Result<()> {
        let mut answer = Vec::new(self.alloc);
        write_answer(key, &mut answer).map_err(|_| io::ErrorKind::OutOfMemory)?;
        Outlet::new(self.rt, self.bell, stream)?.write_all(&answer)
    }

    // Answers what isn't of a recording.
    fn answer(
        &self,
        stream: &TcpStream,
        number: u64,
        asked: Asked,
        extent: Extent,
    ) -> io::Result<Option<Wish>> {
        match asked {
            Asked::Page => self.give(stream, number, HTML, PAGE.as_bytes(), extent)?,
            Asked::Painter => self.give(stream, number, JAVASCRIPT, PAINTER.as_bytes(), extent)?,
            Asked::Script => self.give(stream, number, JAVASCRIPT, SCRIPT.as_bytes(), extent)?,
            Asked::Style => self.give(stream, number, CSS, STYLE.as_bytes(), extent)?,
            Asked::Times(_) if extent == Extent::HeadAlone => self.give_head(stream, number, JSON)?,
            Asked::Times(survey) => return Ok(Some(Wish::Times(survey))),
            Asked::Watch(_) => {}
        }
        Ok(None)
    }

    // Hears one request: what of a recording it asks for, if it isn't answered to its end.
    fn converse(
        &self,
        stream: &TcpStream,
        from: SocketAddr,
        number: u64,
    ) -> io::Result<Option<Wish>> {
        watch_over(stream)?;
        let Heard { asked, extent } = hear(
            self.rt,
            self.alloc,
            self.bell,
            self.lobby,
            stream,
            number,
            |head| self.judge_whole(head),
        )?;
        match asked {
            Judged::Unfinished => Ok(None),
            Judged::Asked(asked) => self.answer(stream, number, asked, extent),
            Judged::Watch(beginning, key) => {
                self.upgrade(stream, &key)?;
                Ok(Some(Wish::Watch(beginning)))
            }
            Judged::Refused(refusal) => {
                self.telling.tell_refused_request(self.rt, from, refusal);
                self.refuse(stream, number, refusal, extent)?;
                Ok(None)
            }
        }
    }

    /// Hears a connection of this number in the lobby, and answers it unless it wants something of a
    /// recording: its visit, which still is in the lobby if it isn't to watch. What goes wrong ends
    /// the connection alone.
    pub fn hear(&self, stream: Arc<TcpStream>, from: SocketAddr, number: u64) -> Option<Visit> {
        let wish = match self.converse(&stream, from, number) {
            Ok(wish) => wish,
            Err(_) => None,
        };
        if !matches!(wish, Some(Wish::Times(_))) {
            self.lobby.leave(self.rt, number);
        }
        Some(Visit {
            stream,
            from,
            number,
            wish: wish?,
        })
    }

    /// Answers a connection of this number in the lobby with a text in JSON, which ends it; without
    /// one, that nobody can answer it now.
    pub fn tell(&self, stream: &TcpStream, number: u64, text: Option<&[u8]>) {
        let _told = match text {
            Some(text) => self.give(stream, number, JSON, text, Extent::Whole),
            None => self.fail(stream, number),
        };
        self.lobby.leave(self.rt, number);
    }

    // Says that nobody can answer it now, and ends the connection (RFC 9110, section 15.6.4).
    fn fail(&self, stream: &TcpStream, number: u64) -> io::Result<()> {
        let mut outlet = Outlet::new(self.rt, self.bell, stream)?;
        write_failure(
            &mut outlet,
            "503 Service Unavailable",
            "memory is short, or the server is ending\n",
            Extent::Whole,
        )?;
        wait_for_end(self.rt, self.bell, self.lobby, stream, number)
    }
}
