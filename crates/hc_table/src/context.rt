ghost use Rattle.std.specs.Prelude.{◌≡◌};
ghost use Rattle.hc_table.specs.Contexts.{contain, is_directory, is_server};

/// A place in which a directive stands (the manual's "Context").
#[derive(Clone, Copy, PartialEq, Eq)]
pub enum Context {
    /// Outside all sections of the main server.
    MainServer,
    /// In `<VirtualHost>`.
    VirtualHost,
    /// In `<Directory>`, but not in `<Directory ~>`.
    Directory,
    /// In `<DirectoryMatch>` and `<Directory ~>`.
    DirectoryMatch,
    /// In `<Files>` and `<FilesMatch>`.
    Files,
    /// In `<Location>` and `<LocationMatch>`.
    Location,
    /// In `<If>`, `<ElseIf>` and `<Else>`.
    IfSection,
    /// In an `.htaccess` file.
    Htaccess,
}

impl Context {
    fn is_server(self) -> bool
        ensures { result ≡ is_server self }
    {
        matches!(self, Context::MainServer | Context::VirtualHost)
    }

    fn is_directory(self) -> bool
        ensures { result ≡ is_directory self }
    {
        matches!(self, Context::Directory | Context::Htaccess)
    }
}

/// The places in which a directive may stand.
#[derive(Clone, Copy, PartialEq, Eq)]
pub enum Contexts {
    MainServer,
    VirtualHost,
    /// In the main server and in virtual hosts, outside other sections.
    Servers,
    Directory,
    /// For one directory: in its section, or in a file inside it.
    Directories,
    /// For a server or for one directory.
    ServersAndDirectories,
    /// Where `<Files>` may stand.
    AroundFiles,
    /// In any section but a virtual host, and in `.htaccess`.
    AllButServers,
    /// Anywhere but in `<If>` and its like.
    AllButIf,
    /// Anywhere but in `.htaccess`.
    AllButHtaccess,
    Everywhere,
}

impl Contexts {
    /// This context is one of them.
    pub fn contain(self, context: Context) -> bool
        ensures { result ≡ contain self context }
    {
        match self {
            Contexts::MainServer => matches!(context, Context::MainServer),
            Contexts::VirtualHost => matches!(context, Context::VirtualHost),
            Contexts::Servers => context.is_server(),
            Contexts::Directory => matches!(context, Context::Directory),
            Contexts::Directories => context.is_directory(),
            Contexts::ServersAndDirectories => context.is_server() || context.is_directory(),
            Contexts::AroundFiles => {
                context.is_server()
                    || context.is_directory()
                    || matches!(context, Context::DirectoryMatch)
            }
            Contexts::AllButServers => !context.is_server(),
            Contexts::AllButIf => !matches!(context, Context::IfSection),
            Contexts::AllButHtaccess => !matches!(context, Context::Htaccess),
            Contexts::Everywhere => true,
        }
    }
}
