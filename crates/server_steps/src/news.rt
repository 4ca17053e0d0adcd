//! News of a loop that wait to be told.

ghost use Rattle.std.specs.Prelude.{◌≡◌, IfOk, []};
ghost use Rattle.server_steps.specs.Telling.{filled_by, misfit, with_any, with_news};

use server_connections::{News, Role, SeatAnswer, SeatFault};
use std::alloc::{AllocError, Global};
use std::marker::Model;

// At most this many news wait until they are told. Later ones are left out.
const MOST: usize = 1_024;

/// News in the order in which they happened. The room for all that may wait is reserved.
pub struct NewsList {
    items: Vec<News>,
}

impl Drop for NewsList {
    fn drop(self) {
        let NewsList { items: _ } = self;
    }
}

impl Model for NewsList {
    ghost use Rattle.std.specs.Prelude.{◌≤◌, List, vec_capacity};
    ghost use Rattle.server_seat.specs.declared.news.News.{News as Told};

    ghost Value = { List Told };

    ghost view = { λ l. l.items.items };

    ghost invariant = { λ l. 1024 ≤ vec_capacity l.items };
}

impl NewsList {
    /// No news.
    pub fn new(alloc: Global) -> Result<NewsList, AllocError>
        ensures { IfOk result (λ list. list ≡ []) }
    {
        Ok(NewsList {
            items: Vec::with_capacity(alloc, MOST)?,
        })
    }

    /// Puts one down, unless many wait.
    pub fn put(&mut self, news: News)
        ensures { self.new ≡ with_news news self.old }
    {
        if self.items.len() < MOST {
            self.items.push_reserved(news);
        }
    }

    /// Puts one down, if there is one.
    pub fn put_any(&mut self, news: Option<News>)
        ensures { self.new ≡ with_any news self.old }
    {
        if let Some(news) = news {
            self.put(news);
        }
    }

    /// Those that wait.
    pub fn as_slice(&self) -> &[News]
        ensures { result.now ≡ self.now }
    {
        self.items.as_slice()
    }

    /// They were told.
    pub fn clear(&mut self)
        ensures { self.new ≡ [] }
    {
        self.items.clear();
    }
}

/// What is told of an answer: how full the trail is, if that is news.
pub fn filled_by(answer: &Result<SeatAnswer, SeatFault>) -> Option<News>
    ensures { result ≡ filled_by answer.now }
{
    let Ok(answer) = answer else {
        return None;
    };
    match answer.filled {
        Some(percent) => Some(News::Filled(percent)),
        None => None,
    }
}

/// What is told of a connection that sent what it mustn't: no first message came from it.
pub fn misfit(role: Role) -> Option<News>
    ensures { result ≡ misfit role }
{
    match role {
        Role::Stranger => Some(News::Misfit),
        Role::Client(_) => None,
        Role::Window(_) => None,
    }
}
