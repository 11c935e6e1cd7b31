//! How far a logical line has come: code, or a directive with what it defines or includes.
ghost use Rattle.std.specs.Prelude.{◌≡◌, ◌≤◌, ◌<◌, ◌&&◌, length};
ghost use Rattle.cb_scan.specs.declared.source.TheConstants.{MOST_BYTES};
ghost use Rattle.std.specs.Option.{option_to_list};
ghost use Rattle.cb_scan.specs.lex.Tokens.{is_name_token};
ghost use Rattle.cb_scan.specs.steps.Directives.{body_call, directive_of, header_found};
ghost use Rattle.cb_scan.specs.steps.Directives.{include_out, is_code, macro_call, macro_ended};
ghost use Rattle.cb_scan.specs.steps.Directives.{macro_found, macro_named, names_count};
ghost use Rattle.cb_scan.specs.steps.Directives.{next_defining, next_directive, next_including};
ghost use Rattle.cb_scan.specs.steps.Directives.{next_stage, opens_arguments, range_ended};

use crate::facts::{Call, Def, Include, Kind};
use crate::lex::piece::Span;
use crate::lex::token::{Role, Token, WordKind};
use crate::rules::header::{angle_header, string_header};
use crate::rules::scope::Range;

/// How far a `# define` has come.
#[derive(Clone, Copy)]
pub(crate) enum Defining {
    /// `# define`.
    Begun,
    /// `# define` and a name.
    Name(Token),
    /// The arguments of a macro of that name.
    Arguments(Span),
    /// The body of a macro of that name, and its last token.
    Body(Span, Option<Token>),
    /// Nothing more is asked.
    Other,
}

/// How far a `# include` has come.
#[derive(Clone, Copy)]
pub(crate) enum Including {
    /// `# include`.
    Begun,
    /// The `<` of a header.
    Angle(Token),
    /// Nothing more is asked.
    Done,
}

/// How far a directive has come.
#[derive(Clone, Copy)]
pub(crate) enum Directive {
    /// The `#`.
    Hash,
    /// `# define`.
    Define(Defining),
    /// `# include`.
    Include(Including),
    /// Any other directive.
    Other,
}

/// How far a logical line has come.
#[derive(Clone, Copy)]
pub(crate) enum Stage {
    /// No token yet.
    Start,
    /// A line of code.
    Code,
    /// A directive.
    Directive(Directive),
}

/// Whether a `(` directly follows the name: then the macro has arguments.
fn opens_arguments(name: Token, token: &Token) -> bool
    ensures { result ≡ opens_arguments name token.now }
{
    token.is_mark(b'(') && token.span.start == name.span.end
}

impl Defining {
    /// After a token.
    fn next(&mut self, token: &Token)
        ensures { self.new ≡ next_defining self.old token.now }
    {
        *self = match *self {
            Defining::Begun if token.is_name() => Defining::Name(*token),
            Defining::Name(name) if opens_arguments(name, token) => Defining::Arguments(name.span),
            Defining::Arguments(name) if token.is_mark(b')') => Defining::Body(name, None),
            Defining::Arguments(_) => *self,
            Defining::Body(name, _) => Defining::Body(name, Some(*token)),
            Defining::Begun | Defining::Name(_) | Defining::Other => Defining::Other,
        };
    }

    /// The macro that the next token names, with arguments or without, if it names one.
    fn named(&self, token: &Token) -> Option<Def>
        ensures { result ≡ macro_named self.now token.now }
    {
        match self {
            Defining::Begun if token.is_name() => Some(Def {
                name: token.span,
                kind: Kind::Macro,
                line: token.line,
                local: false,
                tag: None,
            }),
            _ => None,
        }
    }

    /// The range of the macro, where the line ends at a place.
    fn ended(&self, end: u32) -> Option<Range>
        ensures { result ≡ range_ended self.now end }
    {
        match *self {
            Defining::Arguments(name) | Defining::Body(name, _) => Some(Range { name, end }),
            _ => None,
        }
    }

    /// The call that the last token is, if the next one tells so.
    fn call(&self, token: &Token) -> Option<Call>
        ensures { result ≡ body_call self.now token.now }
    {
        match *self {
            Defining::Body(caller, Some(last)) if last.is_name() && token.is_mark(b'(') => Some(
                Call {
                    callee: last.span,
                    line: last.line,
                    caller,
                },
            ),
            _ => None,
        }
    }
}

impl Including {
    /// After a token.
    fn next(&mut self, token: &Token)
        ensures { self.new ≡ next_including self.old token.now }
    {
        *self = match *self {
            Including::Begun if token.is_mark(b'<') => Including::Angle(*token),
            Including::Angle(_) if !token.is_mark(b'>') => *self,
            _ => Including::Done,
        };
    }

    /// The include whose header the next token is or ends.
    fn found(&self, text: &[u8], token: &Token) -> Option<Include>
        requires some { token.now.span.start < token.now.span.end }
        requires within { token.now.span.end ≤ length text.now }
        requires small { length text.now ≤ MOST_BYTES }
        ensures { option_to_list result ≡ header_found text.now self.now token.now }
    {
        match (*self, token.role) {
            (Including::Begun, Role::Str) => string_header(text, *token),
            (Including::Angle(open), Role::Mark(b'>')) => angle_header(open, *token),
            _ => None,
        }
    }
}

impl Directive {
    /// After the own word of a directive.
    fn of(own: &Token) -> Directive
        ensures { result ≡ directive_of own.now }
    {
        match own.role {
            Role::Word(WordKind::Define) => Directive::Define(Defining::Begun),
            Role::Word(WordKind::Include) => Directive::Include(Including::Begun),
            _ => Directive::Other,
        }
    }

    /// After a token.
    fn next(&mut self, token: &Token)
        ensures { self.new ≡ next_directive self.old token.now }
    {
        match self {
            Directive::Hash => *self = Directive::of(token),
            Directive::Define(define) => define.next(token),
            Directive::Include(include) => include.next(token),
            Directive::Other => {}
        }
    }
}

impl Stage {
    /// After a token.
    #[inline(always)]
    pub(crate) fn next(&mut self, token: &Token)
        ensures { self.new ≡ next_stage self.old token.now }
    {
        match self {
            Stage::Start if token.is_mark(b'#') => *self = Stage::Directive(Directive::Hash),
            Stage::Start => *self = Stage::Code,
            Stage::Code => {}
            Stage::Directive(directive) => directive.next(token),
        }
    }

    /// Whether the last token was code.
    pub(crate) fn is_code(&self) -> bool
        ensures { result ≡ is_code self.now }
    {
        matches!(self, Stage::Code)
    }

    /// Whether the next token is a use.
    pub(crate) fn is_use(&self, token: &Token) -> bool
        ensures { result ≡ (is_name_token token.now.role && names_count self.now) }
    {
        token.is_name()
            && !matches!(
                self,
                Stage::Directive(Directive::Hash | Directive::Include(_))
            )
    }

    /// The macro that the next token names, with arguments or without, if it names one.
    pub(crate) fn macro_found(&self, token: &Token) -> Option<Def>
        ensures { result ≡ macro_found self.now token.now }
    {
        match self {
            Stage::Directive(Directive::Define(define)) => define.named(token),
            _ => None,
        }
    }

    /// The range of the macro whose line ends at a place.
    pub(crate) fn macro_ended(&self, end: u32) -> Option<Range>
        ensures { result ≡ macro_ended self.now end }
    {
        match self {
            Stage::Directive(Directive::Define(define)) => define.ended(end),
            _ => None,
        }
    }

    /// The call that the last token is, if the next one tells so.
    pub(crate) fn macro_call(&self, token: &Token) -> Option<Call>
        ensures { result ≡ macro_call self.now token.now }
    {
        match self {
            Stage::Directive(Directive::Define(define)) => define.call(token),
            _ => None,
        }
    }

    /// The include whose header the next token is or ends.
    #[inline(always)]
    pub(crate) fn include_found(&self, text: &[u8], token: &Token) -> Option<Include>
        requires some { token.now.span.start < token.now.span.end }
        requires within { token.now.span.end ≤ length text.now }
        requires small { length text.now ≤ MOST_BYTES }
        ensures { option_to_list result ≡ include_out text.now self.now token.now }
    {
        match self {
            Stage::Directive(Directive::Include(include)) => include.found(text, token),
            _ => None,
        }
    }
}
