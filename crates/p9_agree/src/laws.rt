// Laws of the definitions in `specs/`: functions that do nothing, whose contracts are the laws.
ghost use Rattle.p9_agree.specs.Agreement.{FilesJoinAsSources};
ghost use Rattle.p9_agree.specs.Depth.{FormIsNeverDeep, FormComes};
ghost use Rattle.p9_agree.specs.Modules.{FilesHaveModules};

/// Files of the form join by name exactly where their C modules join.
pub fn files_join_as_sources()
    ensures { FilesJoinAsSources }
{}

/// Small files of the form that are joined have room for all their calls, whatever they read.
pub fn form_is_never_deep()
    ensures { FormIsNeverDeep }
{}

/// Their run comes to what the statements of `main` come to by the values of variables alone.
pub fn form_comes()
    ensures { FormComes }
{}

/// Each file of the form has its module: what is promised of modules of files speaks of every file.
pub fn files_have_modules()
    ensures { FilesHaveModules }
{}
