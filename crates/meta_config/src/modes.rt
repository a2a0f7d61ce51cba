//! The modes of a node, and their words.
ghost use Rattle.std.specs.Prelude.{◌≡◌};
ghost use Rattle.meta_config.specs.Parts.{is_pull};
ghost use Rattle.meta_config.specs.Words.{mode_name, refresh_name, after_name};

/// What a node does with its configuration from time to time.
#[derive(Clone, Copy, Debug, PartialEq, Eq)]
pub enum ConfigMode {
    /// Nothing.
    ApplyOnly,

    /// Test it.
    ApplyAndMonitor,

    /// Test it, and set what does not hold.
    ApplyAndAutoCorrect,
}

/// How a node comes to its configuration.
#[derive(Clone, Copy, Debug, PartialEq, Eq)]
pub enum RefreshMode {
    /// It is given one.
    Push,

    /// It asks a server.
    Pull,

    /// Another program sees to it.
    Disabled,
}

/// What a node does after a reboot that a configuration asked for.
#[derive(Clone, Copy, Debug, PartialEq, Eq)]
pub enum AfterReboot {
    ContinueConfiguration,
    StopConfiguration,
}

impl ConfigMode {
    pub fn name(self) -> &'static str
        ensures { result.now ≡ mode_name self }
    {
        match self {
            ConfigMode::ApplyOnly => "ApplyOnly",
            ConfigMode::ApplyAndMonitor => "ApplyAndMonitor",
            ConfigMode::ApplyAndAutoCorrect => "ApplyAndAutoCorrect",
        }
    }
}

impl RefreshMode {
    pub fn name(self) -> &'static str
        ensures { result.now ≡ refresh_name self }
    {
        match self {
            RefreshMode::Push => "Push",
            RefreshMode::Pull => "Pull",
            RefreshMode::Disabled => "Disabled",
        }
    }

    pub fn is_pull(self) -> bool
        ensures { result ≡ is_pull self }
    {
        match self {
            RefreshMode::Pull => true,
            RefreshMode::Push | RefreshMode::Disabled => false,
        }
    }
}

impl AfterReboot {
    pub fn name(self) -> &'static str
        ensures { result.now ≡ after_name self }
    {
        match self {
            AfterReboot::ContinueConfiguration => "ContinueConfiguration",
            AfterReboot::StopConfiguration => "StopConfiguration",
        }
    }
}
