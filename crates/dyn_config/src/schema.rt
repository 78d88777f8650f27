//! The tables of the schema, as data.

ghost use Rattle.std.specs.Prelude.{◌≡◌, map, IsTrue};
ghost use Rattle.dyn_config.specs.Shapes.{rows_of, kinds_of, row_view, table_depth, are_below};

/// What is asked of a value.
#[derive(Clone, Copy)]
pub(crate) enum Shape {
    /// It is not read.
    Anything,
    /// A table of any content.
    AnyTable,
    Flag,
    Time,
    Text(TextRange),
    Number(NumberRange),
    /// A list of texts.
    Texts,
    /// Names and values of field lines.
    Lines,
    /// A table of options.
    Options(Table),
    /// A table of options that takes others too.
    Open(Table),
    /// A list of tables.
    Tables(Table),
    /// Declared names.
    Names(Declared),
    /// A table of one entry, which tells the kind.
    Kinds(Family),
}

/// Which texts an option takes.
#[derive(Clone, Copy)]
pub(crate) enum TextRange {
    Whatever,
    CookieName,
    CookieText,
    SameSite,
    ProbePath,
}

/// Which numbers an option takes.
#[derive(Clone, Copy)]
pub(crate) enum NumberRange {
    All,
    /// 0 to 2^31 - 1.
    Weight,
    /// 0 to 100.
    Percent,
    /// 0 to 65,535.
    Short,
    /// At least -1.
    Size,
}

#[derive(Clone, Copy)]
pub(crate) enum Table {
    Router,
    Cookie,
    Sticky,
    Health,
    Server,
    Balancer,
    Child,
    Weighted,
    Mirror,
    Mirroring,
    Failover,
    AddPrefix,
    StripPrefix,
    ReplacePath,
    ReplacePathRegex,
    Headers,
    IpAllowList,
    Buffering,
    Chain,
    RedirectScheme,
    RedirectRegex,
    Http,
    Top,
}

#[derive(Clone, Copy)]
pub(crate) enum Declared {
    Routers,
    Services,
    Middlewares,
}

#[derive(Clone, Copy)]
pub(crate) enum Family {
    Services,
    Middlewares,
}

/// An option of a table.
#[derive(Clone, Copy)]
pub(crate) struct Row {
    pub(crate) key: &'static [u8],
    pub(crate) required: bool,
    pub(crate) shape: Shape,
}

static ROUTER: [Row; 8] = [
    Row {
        key: b"entryPoints",
        required: false,
        shape: Shape::Texts,
    },
    Row {
        key: b"rule",
        required: false,
        shape: Shape::Text(TextRange::Whatever),
    },
    Row {
        key: b"service",
        required: false,
        shape: Shape::Text(TextRange::Whatever),
    },
    Row {
        key: b"middlewares",
        required: false,
        shape: Shape::Texts,
    },
    Row {
        key: b"priority",
        required: false,
        shape: Shape::Number(NumberRange::All),
    },
    Row {
        key: b"tls",
        required: false,
        shape: Shape::AnyTable,
    },
    Row {
        key: b"ruleSyntax",
        required: false,
        shape: Shape::Text(TextRange::Whatever),
    },
    Row {
        key: b"observability",
        required: false,
        shape: Shape::Anything,
    },
];

static COOKIE: [Row; 7] = [
    Row {
        key: b"name",
        required: false,
        shape: Shape::Text(TextRange::CookieName),
    },
    Row {
        key: b"secure",
        required: false,
        shape: Shape::Flag,
    },
    Row {
        key: b"httpOnly",
        required: false,
        shape: Shape::Flag,
    },
    Row {
        key: b"sameSite",
        required: false,
        shape: Shape::Text(TextRange::SameSite),
    },
    Row {
        key: b"maxAge",
        required: false,
        shape: Shape::Number(NumberRange::All),
    },
    Row {
        key: b"path",
        required: false,
        shape: Shape::Text(TextRange::CookieText),
    },
    Row {
        key: b"domain",
        required: false,
        shape: Shape::Text(TextRange::CookieText),
    },
];

static STICKY: [Row; 1] = [Row {
    key: b"cookie",
    required: false,
    shape: Shape::Options(Table::Cookie),
}];

static HEALTH: [Row; 12] = [
    Row {
        key: b"path",
        required: true,
        shape: Shape::Text(TextRange::ProbePath),
    },
    Row {
        key: b"hostname",
        required: false,
        shape: Shape::Text(TextRange::Whatever),
    },
    Row {
        key: b"port",
        required: false,
        shape: Shape::Number(NumberRange::Short),
    },
    Row {
        key: b"method",
        required: false,
        shape: Shape::Text(TextRange::Whatever),
    },
    Row {
        key: b"headers",
        required: false,
        shape: Shape::Lines,
    },
    Row {
        key: b"status",
        required: false,
        shape: Shape::Number(NumberRange::Short),
    },
    Row {
        key: b"interval",
        required: false,
        shape: Shape::Time,
    },
    Row {
        key: b"timeout",
        required: false,
        shape: Shape::Time,
    },
    Row {
        key: b"scheme",
        required: false,
        shape: Shape::Text(TextRange::Whatever),
    },
    Row {
        key: b"mode",
        required: false,
        shape: Shape::Text(TextRange::Whatever),
    },
    Row {
        key: b"followRedirects",
        required: false,
        shape: Shape::Anything,
    },
    Row {
        key: b"unhealthyInterval",
        required: false,
        shape: Shape::Anything,
    },
];

static SERVER: [Row; 3] = [
    Row {
        key: b"url",
        required: true,
        shape: Shape::Text(TextRange::Whatever),
    },
    Row {
        key: b"weight",
        required: false,
        shape: Shape::Number(NumberRange::Weight),
    },
    Row {
        key: b"preservePath",
        required: false,
        shape: Shape::Flag,
    },
];

static BALANCER: [Row; 7] = [
    Row {
        key: b"servers",
        required: false,
        shape: Shape::Tables(Table::Server),
    },
    Row {
        key: b"sticky",
        required: false,
        shape: Shape::Options(Table::Sticky),
    },
    Row {
        key: b"healthCheck",
        required: false,
        shape: Shape::Options(Table::Health),
    },
    Row {
        key: b"passHostHeader",
        required: false,
        shape: Shape::Flag,
    },
    Row {
        key: b"responseForwarding",
        required: false,
        shape: Shape::Anything,
    },
    Row {
        key: b"serversTransport",
        required: false,
        shape: Shape::Anything,
    },
    Row {
        key: b"strategy",
        required: false,
        shape: Shape::Text(TextRange::Whatever),
    },
];

static CHILD: [Row; 2] = [
    Row {
        key: b"name",
        required: true,
        shape: Shape::Text(TextRange::Whatever),
    },
    Row {
        key: b"weight",
        required: false,
        shape: Shape::Number(NumberRange::Weight),
    },
];

static WEIGHTED: [Row; 3] = [
    Row {
        key: b"services",
        required: false,
        shape: Shape::Tables(Table::Child),
    },
    Row {
        key: b"sticky",
        required: false,
        shape: Shape::Options(Table::Sticky),
    },
    Row {
        key: b"healthCheck",
        required: false,
        shape: Shape::Anything,
    },
];

static MIRROR: [Row; 2] = [
    Row {
        key: b"name",
        required: true,
        shape: Shape::Text(TextRange::Whatever),
    },
    Row {
        key: b"percent",
        required: false,
        shape: Shape::Number(NumberRange::Percent),
    },
];

static MIRRORING: [Row; 5] = [
    Row {
        key: b"service",
        required: true,
        shape: Shape::Text(TextRange::Whatever),
    },
    Row {
        key: b"mirrors",
        required: false,
        shape: Shape::Tables(Table::Mirror),
    },
    Row {
        key: b"maxBodySize",
        required: false,
        shape: Shape::Number(NumberRange::Size),
    },
    Row {
        key: b"mirrorBody",
        required: false,
        shape: Shape::Flag,
    },
    Row {
        key: b"healthCheck",
        required: false,
        shape: Shape::Anything,
    },
];

static FAILOVER: [Row; 3] = [
    Row {
        key: b"service",
        required: true,
        shape: Shape::Text(TextRange::Whatever),
    },
    Row {
        key: b"fallback",
        required: true,
        shape: Shape::Text(TextRange::Whatever),
    },
    Row {
        key: b"healthCheck",
        required: false,
        shape: Shape::Anything,
    },
];

static ADD_PREFIX: [Row; 1] = [Row {
    key: b"prefix",
    required: false,
    shape: Shape::Text(TextRange::Whatever),
}];

static STRIP_PREFIX: [Row; 2] = [
    Row {
        key: b"prefixes",
        required: false,
        shape: Shape::Texts,
    },
    Row {
        key: b"forceSlash",
        required: false,
        shape: Shape::Anything,
    },
];

static REPLACE_PATH: [Row; 1] = [Row {
    key: b"path",
    required: false,
    shape: Shape::Text(TextRange::Whatever),
}];

static REPLACE_PATH_REGEX: [Row; 2] = [
    Row {
        key: b"regex",
        required: false,
        shape: Shape::Text(TextRange::Whatever),
    },
    Row {
        key: b"replacement",
        required: false,
        shape: Shape::Text(TextRange::Whatever),
    },
];

static HEADERS: [Row; 2] = [
    Row {
        key: b"customRequestHeaders",
        required: false,
        shape: Shape::Lines,
    },
    Row {
        key: b"customResponseHeaders",
        required: false,
        shape: Shape::Lines,
    },
];

static IP_ALLOW_LIST: [Row; 1] = [Row {
    key: b"sourceRange",
    required: false,
    shape: Shape::Texts,
}];

static BUFFERING: [Row; 3] = [
    Row {
        key: b"maxRequestBodyBytes",
        required: false,
        shape: Shape::Number(NumberRange::All),
    },
    Row {
        key: b"memRequestBodyBytes",
        required: false,
        shape: Shape::Anything,
    },
    Row {
        key: b"memResponseBodyBytes",
        required: false,
        shape: Shape::Anything,
    },
];

static CHAIN: [Row; 1] = [Row {
    key: b"middlewares",
    required: false,
    shape: Shape::Texts,
}];

static REDIRECT_SCHEME: [Row; 3] = [
    Row {
        key: b"scheme",
        required: false,
        shape: Shape::Text(TextRange::Whatever),
    },
    Row {
        key: b"port",
        required: false,
        shape: Shape::Text(TextRange::Whatever),
    },
    Row {
        key: b"permanent",
        required: false,
        shape: Shape::Flag,
    },
];

static REDIRECT_REGEX: [Row; 3] = [
    Row {
        key: b"regex",
        required: false,
        shape: Shape::Text(TextRange::Whatever),
    },
    Row {
        key: b"replacement",
        required: false,
        shape: Shape::Text(TextRange::Whatever),
    },
    Row {
        key: b"permanent",
        required: false,
        shape: Shape::Flag,
    },
];

static HTTP: [Row; 4] = [
    Row {
        key: b"routers",
        required: false,
        shape: Shape::Names(Declared::Routers),
    },
    Row {
        key: b"services",
        required: false,
        shape: Shape::Names(Declared::Services),
    },
    Row {
        key: b"middlewares",
        required: false,
        shape: Shape::Names(Declared::Middlewares),
    },
    Row {
        key: b"serversTransports",
        required: false,
        shape: Shape::Anything,
    },
];

static TOP: [Row; 4] = [
    Row {
        key: b"http",
        required: false,
        shape: Shape::Options(Table::Http),
    },
    Row {
        key: b"tcp",
        required: false,
        shape: Shape::Anything,
    },
    Row {
        key: b"udp",
        required: false,
        shape: Shape::Anything,
    },
    Row {
        key: b"tls",
        required: false,
        shape: Shape::Anything,
    },
];

static SERVICE_KINDS: [Row; 4] = [
    Row {
        key: b"loadBalancer",
        required: false,
        shape: Shape::Options(Table::Balancer),
    },
    Row {
        key: b"weighted",
        required: false,
        shape: Shape::Options(Table::Weighted),
    },
    Row {
        key: b"mirroring",
        required: false,
        shape: Shape::Options(Table::Mirroring),
    },
    Row {
        key: b"failover",
        required: false,
        shape: Shape::Options(Table::Failover),
    },
];

static MIDDLEWARE_KINDS: [Row; 10] = [
    Row {
        key: b"addPrefix",
        required: false,
        shape: Shape::Options(Table::AddPrefix),
    },
    Row {
        key: b"stripPrefix",
        required: false,
        shape: Shape::Options(Table::StripPrefix),
    },
    Row {
        key: b"replacePath",
        required: false,
        shape: Shape::Options(Table::ReplacePath),
    },
    Row {
        key: b"replacePathRegex",
        required: false,
        shape: Shape::Options(Table::ReplacePathRegex),
    },
    Row {
        key: b"headers",
        required: false,
        shape: Shape::Open(Table::Headers),
    },
    Row {
        key: b"ipAllowList",
        required: false,
        shape: Shape::Open(Table::IpAllowList),
    },
    Row {
        key: b"chain",
        required: false,
        shape: Shape::Options(Table::Chain),
    },
    Row {
        key: b"buffering",
        required: false,
        shape: Shape::Open(Table::Buffering),
    },
    Row {
        key: b"redirectScheme",
        required: false,
        shape: Shape::Options(Table::RedirectScheme),
    },
    Row {
        key: b"redirectRegex",
        required: false,
        shape: Shape::Options(Table::RedirectRegex),
    },
];

/// The options of a table.
pub(crate) fn rows_in(table: Table) -> &'static [Row]
    ensures rows { map row_view result.now ≡ rows_of table }
    ensures below { IsTrue (are_below (table_depth table) result.now) }
{
    match table {
        Table::Router => &ROUTER,
        Table::Cookie => &COOKIE,
        Table::Sticky => &STICKY,
        Table::Health => &HEALTH,
        Table::Server => &SERVER,
        Table::Balancer => &BALANCER,
        Table::Child => &CHILD,
        Table::Weighted => &WEIGHTED,
        Table::Mirror => &MIRROR,
        Table::Mirroring => &MIRRORING,
        Table::Failover => &FAILOVER,
        Table::AddPrefix => &ADD_PREFIX,
        Table::StripPrefix => &STRIP_PREFIX,
        Table::ReplacePath => &REPLACE_PATH,
        Table::ReplacePathRegex => &REPLACE_PATH_REGEX,
        Table::Headers => &HEADERS,
        Table::IpAllowList => &IP_ALLOW_LIST,
        Table::Buffering => &BUFFERING,
        Table::Chain => &CHAIN,
        Table::RedirectScheme => &REDIRECT_SCHEME,
        Table::RedirectRegex => &REDIRECT_REGEX,
        Table::Http => &HTTP,
        Table::Top => &TOP,
    }
}

/// The kinds of services or middlewares.
pub(crate) fn kinds_in(family: Family) -> &'static [Row]
    ensures rows { map row_view result.now ≡ kinds_of family }
    ensures below { IsTrue (are_below 5 result.now) }
{
    match family {
        Family::Services => &SERVICE_KINDS,
        Family::Middlewares => &MIDDLEWARE_KINDS,
    }
}
